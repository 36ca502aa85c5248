// What holds of the cells behind every case, on the contract of a function.
ghost use Rattle.case_lines.specs.Leaves.{OneLeaving};

// A case leaves one thing in the judge's cells, and the same lines in the piece cells.
pub fn leavings_are_one()
    ensures { OneLeaving }
{}
