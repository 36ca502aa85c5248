// Who is told of each call as it is answered.
ghost use Rattle.lent.specs.Holding.{contents};
ghost use Rattle.scripts.specs.Hearing.{Hearing};

use crate::call::Call;
use crate::reply::Reply;
use lent::cells::Cells;

/// A listener may look at what the call left in the lent cells. Where it fails, no more calls are made.
pub trait Listener {
    type Error;

    // What it may turn into and answer as it is told.
    ghost hears: { Hearing Self Self.Error };

    fn hear(&mut self, call: &Call<'_>, reply: &Reply, cells: &Cells<'_>) -> Result<(), Self::Error>
        ensures { hears self.old call.now reply.now (contents cells.now) self.new result };
}
