// Why a call on a job is turned down.

/// Why an entry is turned down, in the order of the checks: the first that holds is the answer.
#[derive(Clone, Copy, PartialEq, Eq)]
pub enum EnterFault {
    /// The job is sealed.
    Sealed,
    /// The job has no such line.
    NoSuchLine,
    /// The first tick is not before the end, or the end is above 1,000,000,001.
    BadStretch,
    /// The two numbers are not the ends of a reading.
    NotReading,
    /// At a tick of the stretch stands a reading that does not contain this one.
    NotInside,
    /// The line would have more than 64 pieces.
    TooManyPieces,
}

/// The job has no such line.
#[derive(Clone, Copy, PartialEq, Eq)]
pub struct NoSuchLine;
