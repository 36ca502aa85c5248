// What the judge is asked.
ghost use Rattle.std.specs.Prelude.{◌≡◌, ◌-◌, length};
ghost use Rattle.rules.specs.Texts.{table_of};
ghost use Rattle.reference.specs.Tables.{value_at};

use jobs::job::Job;
use reference::ends::Ends;
use reference::values::Values;
use rules::rule::Rule;
use std::alloc::Global;

// The heap is for the cells that are lent.
#[derive(Clone, Copy)]
pub struct Question<'q, 'a> {
    pub heap: Global,
    pub job: &'q Job<'a>,
    pub rule: &'q Rule,
    pub tick: u32,
}

impl Question<'_, '_> {
    // The verdict of the reference.
    pub(crate) fn verdict(&self, values: &Values) -> Ends
        ensures { result ≡ value_at values.now (length (table_of self.now.rule.now) - 1) self.now.tick }
    {
        let last = self.rule.rows().len().wrapping_sub(1);
        values.at(last, self.tick as usize)
    }
}
