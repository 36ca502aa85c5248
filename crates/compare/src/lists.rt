// The lists that the cells should hold, as the reference has them.
use meaning::mark::Mark;
use pieces::piece::Piece;
use reference::ends::Ends;
use reference::forecast::TICKS;
use reference::marks::marked;
use reference::values::Values;
use reference::wants::{WANT_TICKS, Wants};
use rules::row::Row;
use std::alloc::{AllocError, Global};

// Adds the pieces of a function of ticks: one for each tick whose value is not that of the tick before.
fn push_pieces<V: Copy + PartialEq, F: Fn(usize) -> V>(
    list: &mut Vec<Piece<V>>,
    ticks: u32,
    value_at: F,
) -> Result<(), AllocError>
    requires { F.IsAlwaysCallable value_at }
{
    let mut before = None;
    // By number: a tick is what the function is asked, and where a piece starts.
    for start in 0..ticks {
        let value = value_at(start as usize);
        if before != Some(value) {
            list.push(Piece { start, value })?;
        }
        before = Some(value);
    }
    Ok(())
}

// The row lists, from row 0 on.
pub(crate) fn row_list(
    heap: Global,
    rows: usize,
    values: &Values,
) -> Result<Vec<Piece<Ends>>, AllocError> {
    let mut list = Vec::new(heap);
    // By number: the reference is asked for a row by its number.
    for row in 0..rows {
        push_pieces(&mut list, TICKS as u32, |t| values.at(row, t))?;
    }
    Ok(list)
}

// The want lists, from the last row to row 0.
pub(crate) fn want_list(
    heap: Global,
    rows: usize,
    wants: &Wants,
) -> Result<Vec<Piece<bool>>, AllocError> {
    let mut list = Vec::new(heap);
    // By number, as above.
    for row in (0..rows).rev() {
        push_pieces(&mut list, WANT_TICKS as u32, |t| wants.at(row, t))?;
    }
    Ok(list)
}

// The marks, from row 0 on: one for each stretch of ticks that ends by those that are kept.
pub(crate) fn mark_list(
    heap: Global,
    rows: &[Row],
    values: &Values,
    wants: &Wants,
) -> Result<Vec<Mark>, AllocError> {
    let mut list = Vec::new(heap);
    // By number: a mark names its row so.
    for row in 0..rows.len() {
        let mut stretches = Vec::new(heap);
        push_pieces(&mut stretches, WANT_TICKS as u32, |t| {
            marked(rows, values, wants, row, t)
        })?;
        for (stretch, next) in stretches.iter().zip(stretches.iter().skip(1)) {
            if stretch.value {
                list.push(Mark {
                    row,
                    first: stretch.start,
                    after: next.start,
                })?;
            }
        }
    }
    Ok(list)
}
