// How many cells a program lends.

/// For the pieces of 16 lines, 64 for each.
pub const PIECES: usize = 1024;

/// For the row lists of each grade.
pub const ROWS: usize = 1024;

pub const WANTS: usize = 1024;

pub const MARKS: usize = 256;
