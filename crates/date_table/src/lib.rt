// Dates of recorded times in whole milliseconds. A date table holds x, the recorded time, then y, the date, of each entry; it
// is made from a conic, and a time is dated by the entries beside it. Of two times that one table dates, the later never gets
// the earlier date: specs/Laws.antt, and specs/Forward.antt for which conics a table is made of. Written from docs/RULES.md,
// "Dates".
#![tactic(auto)]

ghost use Rattle.std.specs.Prelude.{◌≡◌, ◌+◌, ◌^◌, ◌≤◌, Ok, false, length};
ghost use Rattle.conic.specs.declared.Rule.TheVariants.{BothAxes};
ghost use Rattle.conic.specs.Source.{conic_of, short_source};
ghost use Rattle.date_table.specs.declared.NotDated.TheVariants.{Refused};
ghost use Rattle.date_table.specs.Answers.{number_of_refusal, refusal_numbers, number_of_not_dated, not_dated_numbers};
ghost use Rattle.date_table.specs.All.{AllInto};
ghost use Rattle.date_table.specs.Forward.{NeverRefused};
ghost use Rattle.date_table.specs.Making.{MadeInto};
ghost use Rattle.date_table.specs.Table.{DatedAt};

use answers::Numbered;
use conic::{Conic, Rule};
use lookup::Table;
use std::fmt;

mod lookup;
mod making;
pub mod whole;

// Why a call does nothing.
#[derive(Clone, Copy, Debug, PartialEq, Eq)]
pub enum Refusal {
    // The conic is to be cut at a level above 6.
    LevelTooHigh,
    // There is no room for the table, or fewer than six numbers of a conic, or no entry.
    BufferTooShort,
    // Half an entry.
    OddLength,
    // A number of the table is not from 0 to 16,777,216.
    EntryOutOfRange,
    // The time is before the first x or after the last.
    TimeOutside,
    // An x or a y is below the one before.
    TableFalls,
}

// Their numbers in docs/RULES.md, "Answer numbers".
impl Numbered for Refusal {
    ghost number_of = { number_of_refusal };

    ghost above_zero = { refusal_numbers };

    fn number(self) -> u32 {
        match self {
            Refusal::LevelTooHigh => 1,
            Refusal::BufferTooShort => 2,
            Refusal::OddLength => 9,
            Refusal::EntryOutOfRange => 10,
            Refusal::TimeOutside => 11,
            Refusal::TableFalls => 12,
        }
    }
}

impl fmt::Display for Refusal {
    ghost use Rattle.std.specs.Prelude.{Some};
    ghost use Rattle.date_table.specs.Words.{words_of_refusal};

    ghost output = { λ why. Some (words_of_refusal why) };

    fn fmt<W: fmt::Write>(&self, f: &mut fmt::Formatter<W>) -> fmt::Result {
        match self {
            Refusal::LevelTooHigh => write!(f, "level too high"),
            Refusal::BufferTooShort => write!(f, "too short"),
            Refusal::OddLength => write!(f, "half an entry"),
            Refusal::EntryOutOfRange => write!(f, "out of range"),
            Refusal::TimeOutside => write!(f, "outside the bridge"),
            Refusal::TableFalls => write!(f, "falling"),
        }
    }
}

// Why none of many times is dated: the place of the first that is outside the table, or why the table is refused.
#[derive(Clone, Copy, Debug, PartialEq, Eq)]
pub enum NotDated {
    OutsideAt(usize),
    Refused(Refusal),
}

// A time outside has the same number wherever it stands.
impl Numbered for NotDated {
    ghost number_of = { number_of_not_dated };

    ghost above_zero = { not_dated_numbers };

    fn number(self) -> u32 {
        match self {
            NotDated::OutsideAt(_) => Refusal::TimeOutside.number(),
            NotDated::Refused(why) => why.number(),
        }
    }
}

impl From<Refusal> for NotDated {
    ghost from_gives = { λ why e. e ≡ Refused why };

    fn from(why: Refusal) -> NotDated {
        NotDated::Refused(why)
    }
}

// Makes the date table of c: cut by both axes whatever rule c carries, every second point from the first on, rounded down.
// That is 2^level + 1 entries from the start of `table` on, as it is answered; lookups are to be lent these and not the tail
// behind them.
#[tactic(auto, using(crate::proofs::Forward::makes), unfolding(crate::specs::Making::made_answer, crate::specs::Making::made_table))]
pub fn make(table: &mut [u32], c: Conic, level: u32) -> Result<usize, Refusal>
    ensures made_into { MadeInto level c false table.old result table.new }
    ensures forward { NeverRefused (Ok (2 ^ level + 1)) level c table.old result table.new }
{
    if Conic::MAX_CUT_LEVEL < level {
        return Err(Refusal::LevelTooHigh);
    }
    if table.len() < 2 * making::spans(level) + 2 {
        return Err(Refusal::BufferTooShort);
    }
    making::store(table, c, level)
}

// The same of the conic of the first six numbers of `src`, with this weight.
#[tactic(auto, using(crate::proofs::Forward::makes), unfolding(crate::specs::Making::made_answer, crate::specs::Making::made_table, conic::specs::Source::source_answer))]
pub fn make_from(table: &mut [u32], src: &[f32], weight: f32, level: u32) -> Result<usize, Refusal>
    ensures made_into { MadeInto level (conic_of src.now weight BothAxes) (short_source src.now)
        table.old result table.new }
    ensures forward { 6 ≤ length src.now
        → NeverRefused (Ok (2 ^ level + 1)) level (conic_of src.now weight BothAxes) table.old result table.new }
{
    if level > Conic::MAX_CUT_LEVEL {
        return Err(Refusal::LevelTooHigh);
    }
    let c = Conic::from_points(src, weight, Rule::BothAxes).map_err(|_| Refusal::BufferTooShort)?;
    make(table, c, level)
}

// The date of the recorded time r.
#[tactic(auto, using(crate::proofs::Dates::dated_at, crate::proofs::Dates::table_refused))]
pub fn date_at(table: &[u32], r: u32) -> Result<u32, Refusal>
    ensures { DatedAt table.now r result }
{
    Table::tested(table)?.date(r)
}

// Stores the date of each time over it, by one test of the table. Where a time is outside the table, none is.
#[tactic(auto, using(crate::proofs::Many::all_into, crate::proofs::Many::table_refused))]
pub fn date_all(table: &[u32], times: &mut [u32]) -> Result<(), NotDated>
    ensures { AllInto table.now times.old result times.new }
{
    Table::tested(table)?.date_all(times)
}
