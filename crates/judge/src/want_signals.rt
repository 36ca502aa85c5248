// Where rows are wanted, as signals: the last row, and a row that is the child of another.
ghost use Rattle.std.specs.Prelude.{◌<◌, Bool};
ghost use Rattle.pieces.specs.Ticks.{Steady, Changed};
ghost use Rattle.pieces.specs.Views.{Agree};
ghost use Rattle.judge.specs.Candidates.{EitherStarts};
ghost use Rattle.judge.specs.WantCandidates.{ChildCandidate};
ghost use Rattle.judge.specs.Places.{list_at};
ghost use Rattle.judge.specs.Children.{Askable, Askable_prop, passed_on, said};
ghost use Rattle.judge.specs.Markings.{only_at};

use crate::child::{left_at, right_at};
use crate::lists::CellLists;
use crate::trial::Trial;
use crate::tried::{Asking, Never, Tried};
use crate::window::Window;
use grades::grade::Grade;
use grades::range::Range;
use pieces::list::PieceList;
use pieces::signal::Signal;
use rules::row::Row;

// The last row is wanted at the asked tick alone.
#[derive(Clone, Copy)]
pub(crate) struct LastRow {
    pub(crate) tick: u32,
    ghost early: { tick < 4294967295 },
}

impl Signal<bool> for LastRow {
    ghost Value = { Bool };

    ghost value = { λ b. b };

    ghost f = { λ s. only_at s.tick };

    ghost may_answer = { λ s t v next. Changed (only_at s.tick) v next };

    fn step(&self, t: u32) -> (bool, Option<u32>)
        ensures steady { Steady (only_at self.now.tick) t result.0 result.1 }
        ensures agree { Agree (λ (b : Bool). b) (λ (b : Bool). b) }
        ensures changed { Changed (only_at self.now.tick) result.0 result.1 }
    {
        if t < self.tick {
            (false, Some(self.tick))
        } else if t == self.tick {
            (true, Some(t + 1))
        } else {
            (false, None)
        }
    }
}

// A child is wanted by a row, where that is wanted by its own list and not settled by the lists of ranges.
#[derive(Drop)]
pub(crate) struct ChildRow<'a, 'b, 'c, G> {
    pub(crate) row: Row,
    pub(crate) number: usize,
    pub(crate) child: usize,
    pub(crate) limit: u32,
    pub(crate) ranges: CellLists<'a, 'b, Range<G>>,
    pub(crate) want: PieceList<'c, bool>,
    ghost askable: { Askable row number limit ranges.begins.now ranges.cells.now } by { Askable_prop row number limit ranges.begins.now ranges.cells.now },
}

impl<'a, 'b, 'c, G: Grade> Signal<bool> for ChildRow<'a, 'b, 'c, G> {
    ghost Value = { Bool };

    ghost value = { λ b. b };

    ghost f = { λ s. passed_on G.Grade.kind G.Grade.value s.ranges.begins.now s.ranges.cells.now s.row s.number s.child s.limit (said s.want.pieces.now) };

    ghost may_answer = { λ s t v next. ChildCandidate (λ c. list_at s.ranges.begins.now s.ranges.cells.now c) s.row s.child s.limit (EitherStarts s.want.pieces.now (list_at s.ranges.begins.now s.ranges.cells.now s.number)) next };

    fn step(&self, t: u32) -> (bool, Option<u32>)
        ensures steady { Steady (passed_on G.Grade.kind G.Grade.value self.now.ranges.begins.now self.now.ranges.cells.now self.now.row self.now.number self.now.child self.now.limit (said self.now.want.pieces.now)) t result.0 result.1 }
        ensures agree { Agree (λ (b : Bool). b) (λ (b : Bool). b) }
        ensures named { ChildCandidate (λ c. list_at self.now.ranges.begins.now self.now.ranges.cells.now c) self.now.row self.now.child self.now.limit (EitherStarts self.now.want.pieces.now (list_at self.now.ranges.begins.now self.now.ranges.cells.now self.now.number)) result.1 }
    {
        let limit = self.limit;
        let want = PieceList {
            pieces: self.want.pieces,
        };
        let range = self.ranges.list(self.number);
        let asks = Asking { want, range };
        let here = Window {
            from: 0,
            to: 0,
            limit,
        };
        match self.row {
            Row::Test { .. } => (false, None),
            Row::Not { .. } | Row::And { .. } | Row::Or { .. } => right_at(&asks, &Never, here, t),
            Row::Eventually { from, to, .. } | Row::Always { from, to, .. } => {
                right_at(&asks, &Never, Window { from, to, limit }, t)
            }
            Row::Until {
                from,
                to,
                left,
                right,
            } => {
                let window = Window { from, to, limit };
                let dead = Tried {
                    of: self.ranges.list(left),
                    by: Trial::Lowest,
                };
                if self.child == right {
                    right_at(&asks, &dead, window, t)
                } else {
                    let need = Tried {
                        of: self.ranges.list(right),
                        by: Trial::Higher,
                    };
                    left_at(&asks, &dead, &need, window, t)
                }
            }
        }
    }
}
