// The fields up to the rule.
use rules::rule::Rule;

// How many lines a case has, and its rule.
#[derive(Clone, Copy)]
pub struct Heading {
    pub lines: usize,
    pub rule: Rule,
}
