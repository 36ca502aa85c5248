// The longest stretches on which a row asks.
ghost use Rattle.judge.specs.Marks.{MarkedRow};

use crate::yes::first;
use crate::yesno::YesNo;
use meaning::mark::Mark;
use pieces::sweep::Full;

// Writes the longest stretches below `limit` on which the signal says yes, in the order of ticks, into the cells from `used` on.
pub(crate) fn mark_row<S: YesNo>(
    source: &S,
    limit: u32,
    row: usize,
    marks: &mut [Mark],
    used: usize,
) -> Result<usize, Full>
    ensures { MarkedRow (S.YesNo.f source.now) limit row marks.old used marks.new result }
{
    // From stretch to stretch; the cells are the caller's, so nothing is allocated, and places are counted.
    let mut end = used;
    let mut start = first(source, true, 0, limit);
    while start < limit {
        if end >= marks.len() {
            return Err(Full);
        }
        let after = first(source, false, start, limit);
        marks[end] = Mark {
            row,
            first: start,
            after,
        };
        end += 1;
        start = first(source, true, after, limit);
    }
    Ok(end)
}
