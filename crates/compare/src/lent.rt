// The cells that are lent to a marking.
ghost use Rattle.std.specs.Prelude.{◌≡◌, length, option_map, IfOk};
ghost use Rattle.rules.specs.Texts.{table_of};
ghost use Rattle.runs.specs.Conditions.{FirstFailing};
ghost use Rattle.runs.specs.Calls.{MarkTurn};
ghost use Rattle.runs.specs.States.{readings_of};
ghost use Rattle.jobs.specs.Jobs.{state_of};
ghost use Rattle.judge.specs.Faults.{mark_number};
ghost use Rattle.judge.specs.Answers.{mark_reply, MarkedCells};
ghost use Rattle.compare.specs.Rooms.{cells_ask, written_in, tight_rooms, graded, BlankRoom, written_room, unwritten_room, alike_room};

use crate::cells::{Measured, begin_alike, blank_from, blanks, written};
use crate::question::Question;
use grades::range::Range;
use judge::fault::{JudgeFault, MarkFault};
use judge::marking::{Marking, mark};
use meaning::mark::Mark;
use pieces::piece::Piece;
use std::alloc::{AllocError, Global};

// How many cells of each kind.
#[derive(Clone, Copy, Debug)]
pub struct Room {
    pub rows: usize,
    pub wants: usize,
    pub marks: usize,
}

impl Room {
    // Which refusal comes where the lists take `used`, if one does: the row lists go first, then the wants, then the marks.
    pub fn refusal(self, used: Room) -> Option<MarkFault>
        ensures { FirstFailing (cells_ask self used) (option_map mark_number result) }
    {
        if self.rows < used.rows {
            Some(MarkFault::Judging(JudgeFault::RowCells))
        } else if self.wants < used.wants {
            Some(MarkFault::WantCells)
        } else if self.marks < used.marks {
            Some(MarkFault::MarkCells)
        } else {
            None
        }
    }

    // One cell less of each kind in turn, and at last just these.
    pub fn tight(self) -> [Room; 4]
        ensures { result ≡ tight_rooms self }
    {
        [
            Room {
                rows: self.rows.saturating_sub(1),
                ..self
            },
            Room {
                wants: self.wants.saturating_sub(1),
                ..self
            },
            Room {
                marks: self.marks.saturating_sub(1),
                ..self
            },
            self,
        ]
    }

    // How much is written where the lists take `used`: nothing behind the list that is short.
    pub fn filled(self, used: Room) -> Room
        ensures { result ≡ written_in self used }
    {
        match self.refusal(used) {
            None => used,
            Some(MarkFault::MarkCells) => Room {
                marks: self.marks,
                ..used
            },
            Some(MarkFault::WantCells) => Room {
                rows: used.rows,
                wants: self.wants,
                marks: 0,
            },
            Some(MarkFault::Judging(_)) => Room {
                rows: self.rows,
                wants: 0,
                marks: 0,
            },
        }
    }
}

#[derive(Drop)]
pub struct Lent<G: Drop> {
    pub rows: Vec<Piece<Range<G>>>,
    pub wants: Vec<Piece<bool>>,
    pub marks: Vec<Mark>,
}

impl<G: Measured> Lent<G> {
    // So many cells of each kind, none of which was written.
    pub fn blank(heap: Global, room: Room) -> Result<Lent<G>, AllocError>
        ensures { IfOk result (λ lent. BlankRoom (graded G.number) G.Scale.grading room lent.rows.items lent.wants.items lent.marks.items) }
    {
        let rows = blanks(heap, room.rows)?;
        let wants = blanks(heap, room.wants)?;
        let marks = blanks(heap, room.marks)?;
        Ok(Lent { rows, wants, marks })
    }

    pub fn mark(&mut self, question: &Question<'_, '_>) -> Result<Marking<G>, MarkFault>
        ensures turn { MarkTurn G.kind (state_of question.now.job.now) (table_of question.now.rule.now) question.now.tick (length self.old.rows.items) (length self.old.wants.items) (length self.old.marks.items) (mark_reply G.kind G.value self.new.marks.items result) }
        ensures cells { MarkedCells G.kind G.value (table_of question.now.rule.now) (readings_of (state_of question.now.job.now)) question.now.tick self.old.rows.items self.new.rows.items self.old.wants.items self.new.wants.items self.old.marks.items self.new.marks.items result }
    {
        mark::<G>(
            question.job,
            question.rule,
            question.tick,
            self.rows.as_mut_slice(),
            self.wants.as_mut_slice(),
            self.marks.as_mut_slice(),
        )
    }

    // How much was written of blank cells.
    pub fn used(&self) -> Room
        ensures { result ≡ written_room (graded G.number) G.Scale.grading self.now.rows.items self.now.wants.items self.now.marks.items }
    {
        Room {
            rows: written(self.rows.as_slice()).len(),
            wants: written(self.wants.as_slice()).len(),
            marks: written(self.marks.as_slice()).len(),
        }
    }

    // Whether so many cells are as in the whole lists.
    pub fn begins(&self, whole: &Lent<G>, filled: Room) -> bool
        ensures { result ≡ alike_room (graded G.number) G.Scale.grading filled self.now.rows.items self.now.wants.items self.now.marks.items whole.now.rows.items whole.now.wants.items whole.now.marks.items }
    {
        begin_alike(self.rows.as_slice(), whole.rows.as_slice(), filled.rows)
            && begin_alike(self.wants.as_slice(), whole.wants.as_slice(), filled.wants)
            && begin_alike(self.marks.as_slice(), whole.marks.as_slice(), filled.marks)
    }

    // Whether no cell behind these was written.
    pub fn blank_behind(&self, used: Room) -> bool
        ensures { result ≡ unwritten_room (graded G.number) G.Scale.grading used self.now.rows.items self.now.wants.items self.now.marks.items }
    {
        blank_from(self.rows.as_slice(), used.rows)
            && blank_from(self.wants.as_slice(), used.wants)
            && blank_from(self.marks.as_slice(), used.marks)
    }
}
