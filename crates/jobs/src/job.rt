// A job over lent cells.
ghost use Rattle.jobs.specs.Holds.{HeldSound};

use crate::held::Held;
use meaning::reading::Reading;
use pieces::piece::Piece;

/// What is known of each line at each tick (a millisecond), kept as pieces in lent cells: line k lies in its own 64 cells from cell 64 * k on.
// A line's pieces are the one list of what it reads. The loan of the cells is a field of the job itself,
// so that who lent them can say what they hold once the job has ended.
#[derive(Drop)]
pub struct Job<'a> {
    pub(crate) cells: &'a mut [Piece<Reading>],
    pub(crate) held: Held,
    ghost sound: { HeldSound cells.now held },
}
