// A listing under way behind the heading.
use cases::reader::CaseReader;
use jobs::job::Job;
use lent::cells::Cells;
use rules::rule::Rule;

/// The fields that are left, the job that they are carried out on, the lent cells, and the marks that wait to be told.
#[derive(Drop)]
pub struct FieldLister<'c, 'j, 'k, 'p, 'l> {
    pub(crate) reader: CaseReader<'c>,
    pub(crate) job: &'j mut Job<'p>,
    pub(crate) rule: Rule,
    pub(crate) cells: &'k mut Cells<'l>,
    // The marks that wait are those from `first` up to `after` of the mark cells.
    pub(crate) first: usize,
    pub(crate) after: usize,
    // Nothing is read any more: the case has ended, or is refused.
    pub(crate) over: bool,
}
