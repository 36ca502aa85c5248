// Random entries.
use crate::dice::Dice;
use cases::field::Entry;
use reference::ends::Ends;
use reference::forecast::{Forecast, HORIZON, LINES};

static READINGS: [i32; 16] = [
    -500_001, -500_000, -5, -4, -3, -2, -1, 0, 0, 1, 2, 3, 4, 5, 500_000, 500_001,
];

// The ends of a reading: mostly inside the one that stands, often exact.
fn random_ends(dice: &mut Dice, standing: Ends) -> Ends {
    let one = dice.pick(&READINGS);
    let other = dice.pick(&READINGS);
    if dice.one_in(8) {
        return Ends {
            lower: one,
            upper: other,
        };
    }
    let lower = one.max(standing.lower).min(standing.upper);
    let upper = if dice.one_in(2) {
        lower
    } else {
        other.max(lower).min(standing.upper)
    };
    Ends { lower, upper }
}

// An entry that ends by the horizon; now and then its stretch is empty, or the job may lack its line.
pub(crate) fn random_entry(dice: &mut Dice, forecast: &Forecast) -> Entry {
    let lines = if dice.one_in(16) {
        5
    } else {
        forecast.lines.min(LINES) as u32
    };
    let line = dice.below(lines).min(255) as u8;
    let from = dice.below(HORIZON as u32);
    let width = if dice.one_in(4) { 48 } else { 12 };
    let to = from.saturating_add(dice.below(width)).min(HORIZON as u32);
    let ends = random_ends(dice, forecast.reading(line as usize, from as usize));
    Entry {
        line,
        from,
        to,
        lower: ends.lower,
        upper: ends.upper,
    }
}
