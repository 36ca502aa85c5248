// What a field behind the rule asks of the job.
use crate::field::Entry;

#[derive(Clone, Copy)]
pub enum Call {
    Enter(Entry),
    Judge { tick: u32 },
}

// A call, and the number of its field.
#[derive(Clone, Copy)]
pub struct Step {
    pub field: usize,
    pub call: Call,
}
