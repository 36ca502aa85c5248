// What is known of up to three lines, kept tick by tick up to a horizon.
ghost use Rattle.std.specs.Prelude.{◌≡◌, ℕ, ◌<◌, ◌≤◌, ◌⊎◌, min, slice_index_or};
ghost use Rattle.reference.specs.declared.ends.Ends.{Ends};
ghost use Rattle.grades.specs.Kinds.{Tells};
ghost use Rattle.reference.specs.Known.{ends_of, forecast_reading, EndsWithin, EntryNarrows, NewForecast, EntryAnswer, SetsInForecast, OthersKept, Left, NextDifferent, FirstWidest};

use crate::ends::Ends;
use cases::field::Entry;
use jobs::fault::EnterFault;
use std::ops::Range;

// Entries end here at the latest, so nothing is known from here on.
pub const HORIZON: usize = 48;

// The ticks that are kept: the last stands for itself and all behind it.
pub const TICKS: usize = 49;

// The most lines.
pub const LINES: usize = 3;

const WIDEST: Ends = Ends {
    lower: -500_000,
    upper: 500_000,
};

// Arrays, so that a forecast is copied and opened without a heap and cannot fail.
#[derive(Clone, Copy)]
pub struct Forecast {
    pub lines: usize,
    pub tally: u32,
    pub sealed: bool,
    readings: [[Ends; TICKS]; LINES],
}

// The ticks of the entry that are kept.
fn kept_ticks(entry: Entry) -> Range<usize>
    ensures { result ≡ record { start = min entry.from (min entry.to 49); end = min entry.to 49 } }
{
    let end = (entry.to as usize).min(TICKS);
    (entry.from as usize).min(end)..end
}

// The readings of a line, with those of the entry on the ticks of its stretch.
fn filled(mut readings: [Ends; TICKS], entry: Entry) -> [Ends; TICKS]
    ensures inside { (t : ℕ) (d : Ends) → t < 49 → entry.from ≤ t → t < entry.to → slice_index_or result t d ≡ ends_of entry }
    ensures outside { (t : ℕ) (d : Ends) → t < 49 → (t < entry.from) ⊎ (entry.to ≤ t) → slice_index_or result t d ≡ slice_index_or readings t d }
{
    let ticks = kept_ticks(entry);
    readings[ticks.start..ticks.end].fill(Ends::from(entry));
    readings
}

impl Forecast {
    // So many lines, as far as they are kept, of which nothing is known.
    pub fn new(lines: usize) -> Forecast
        ensures { NewForecast lines result }
    {
        Forecast {
            lines: lines.min(LINES),
            tally: 0,
            sealed: false,
            readings: [[WIDEST; TICKS]; LINES],
        }
    }

    pub fn reading(&self, line: usize, t: usize) -> Ends
        ensures { result ≡ forecast_reading self.now line t }
    {
        match self.readings.get(line) {
            Some(readings) => readings[t.min(HORIZON)],
            None => WIDEST,
        }
    }

    // What an entry that ends by the horizon is answered.
    pub fn answer(&self, entry: Entry) -> Result<(), EnterFault>
        ensures { EntryAnswer self.now entry result }
    {
        if self.sealed {
            return Err(EnterFault::Sealed);
        }
        if entry.line as usize >= self.lines {
            return Err(EnterFault::NoSuchLine);
        }
        if entry.from >= entry.to || entry.to > 1_000_000_001 {
            return Err(EnterFault::BadStretch);
        }
        if !Ends::from(entry).inside(WIDEST) || entry.lower > entry.upper {
            return Err(EnterFault::NotReading);
        }
        if !self.narrowed_by(entry) {
            return Err(EnterFault::NotInside);
        }
        Ok(())
    }

    // Whether the entry is inside what is known, wherever it is set.
    fn narrowed_by(&self, entry: Entry) -> bool
        ensures { Tells result (EntryNarrows self.now entry) }
    {
        let ends = Ends::from(entry);
        kept_ticks(entry).all(|t| ends.inside(self.reading(entry.line as usize, t)))
    }

    fn set(&mut self, entry: Entry)
        ensures readings { SetsInForecast self.old entry self.new }
        ensures others { OthersKept self.old self.new }
    {
        let line = entry.line as usize;
        if line < LINES {
            self.readings[line] = filled(self.readings[line], entry);
        }
    }

    // Makes the entry, unless it is refused.
    pub fn enter(&mut self, entry: Entry) -> Result<(), EnterFault>
        ensures answer { EntryAnswer self.old entry result }
        ensures left { Left self.old entry result self.new }
    {
        self.answer(entry)?;
        self.set(entry);
        self.tally = self.tally.saturating_add(1);
        Ok(())
    }

    // The first tick behind t at which the line reads otherwise, if there is one.
    pub fn change(&self, line: usize, t: usize) -> Option<usize>
        ensures { NextDifferent self.now line t result }
    {
        let reading = self.reading(line, t);
        (t..TICKS).find(|u| self.reading(line, *u) != reading)
    }

    // The first tick with the widest reading: the horizon, where there is none before it.
    pub fn known(&self, line: usize) -> usize
        ensures { FirstWidest self.now line result }
    {
        (0..HORIZON)
            .find(|t| self.reading(line, *t) == WIDEST)
            .unwrap_or(HORIZON)
    }
}
