// Two signals that others hold, as one.
ghost use Rattle.std.specs.Prelude.{◌||◌, ◌⊎◌};

use crate::yesno::YesNo;
use pieces::ticks::first_of;

// Yes where one of the two says yes.
#[derive(Drop)]
pub(crate) struct Or<'a, 'b, S, T> {
    pub(crate) one: &'a S,
    pub(crate) other: &'b T,
}

impl<'a, 'b, S: YesNo, T: YesNo> YesNo for Or<'a, 'b, S, T> {
    ghost f = { λ s u. S.YesNo.f s.one.now u || T.YesNo.f s.other.now u };

    ghost may_change = { λ s n. S.YesNo.may_change s.one.now n ⊎ T.YesNo.may_change s.other.now n };

    fn step(&self, t: u32) -> (bool, Option<u32>) {
        let (here, next) = self.one.step(t);
        let (also, after) = self.other.step(t);
        (here | also, first_of(next, after))
    }
}
