// Yes and no from lists of ranges and of wants.
ghost use Rattle.std.specs.Prelude.{◌≡◌, false};
ghost use Rattle.grades.specs.Worth.{worth};
ghost use Rattle.pieces.specs.Pieces.{at_list};
ghost use Rattle.judge.specs.Candidates.{Starts, EitherStarts};
ghost use Rattle.judge.specs.Trials.{tried, range_says, asked};
ghost use Rattle.judge.specs.declared.trial.Trial.TheVariants.{Loose};

use crate::trial::Trial;
use crate::yesno::YesNo;
use grades::grade::Grade;
use grades::range::Range;
use pieces::list::PieceList;
use pieces::ticks::first_of;

fn try_range<G: Grade>(trial: Trial, range: Range<G>) -> bool
    ensures { result ≡ tried G.kind trial (worth G.kind G.value range) }
{
    match trial {
        Trial::Loose => !range.settled(),
        Trial::Lowest => range.upper.same(G::lowest()),
        Trial::Higher => !range.upper.same(G::lowest()),
    }
}

// A list of ranges, tried at each tick.
#[derive(Drop)]
pub(crate) struct Tried<'a, G> {
    pub(crate) of: PieceList<'a, Range<G>>,
    pub(crate) by: Trial,
}

impl<'a, G: Grade> YesNo for Tried<'a, G> {
    ghost f = { λ s. range_says G.Grade.kind G.Grade.value s.by s.of.pieces.now s.of.ok };

    ghost may_change = { λ s. Starts s.of.pieces.now };

    fn step(&self, t: u32) -> (bool, Option<u32>) {
        let (range, next) = self.of.lookup(t as u64);
        (try_range(self.by, range), next)
    }
}

// Where a row is wanted, by its want list, and not settled, by its ranges.
#[derive(Drop)]
pub(crate) struct Asking<'a, 'b, G> {
    pub(crate) want: PieceList<'a, bool>,
    pub(crate) range: PieceList<'b, Range<G>>,
}

impl<'a, 'b, G: Grade> YesNo for Asking<'a, 'b, G> {
    ghost f = { λ s. asked (at_list s.want.pieces.now s.want.ok) (range_says G.Grade.kind G.Grade.value Loose s.range.pieces.now s.range.ok) };

    ghost may_change = { λ s. EitherStarts s.want.pieces.now s.range.pieces.now };

    fn step(&self, t: u32) -> (bool, Option<u32>) {
        let (wanted, until) = self.want.lookup(t as u64);
        let (range, next) = self.range.lookup(t as u64);
        let loose = try_range(Trial::Loose, range);
        (wanted & loose, first_of(until, next))
    }
}

// Nothing is ever lowest.
#[derive(Clone, Copy)]
pub(crate) struct Never;

impl YesNo for Never {
    ghost f = { λ _ _. false };

    ghost may_change = { λ _ _. ⊥ };

    fn step(&self, _t: u32) -> (bool, Option<u32>) {
        (false, None)
    }
}
