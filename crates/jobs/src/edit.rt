// A change of a line's pieces: the first `keep` stay, then come at most two new ones, then those from `skip` on.
use meaning::reading::Reading;
use pieces::piece::Piece;

#[derive(Clone, Copy)]
pub(crate) struct Edit {
    pub(crate) keep: usize,
    pub(crate) first: Option<Piece<Reading>>,
    pub(crate) second: Option<Piece<Reading>>,
    pub(crate) skip: usize,
}
