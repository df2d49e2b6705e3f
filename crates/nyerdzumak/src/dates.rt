// The calls for dates. A date table holds x, the recorded time, then y, the date, of each entry, in whole milliseconds.
ghost use Rattle.std.specs.Prelude.{◌≡◌, [], ◌∷◌, ◌≤◌, length};
ghost use Rattle.conic.specs.declared.Rule.TheVariants.{BothAxes};
ghost use Rattle.conic.specs.Source.{conic_of, short_source};
ghost use Rattle.date_table.specs.declared.Refusal.TheVariants.{TimeOutside};
ghost use Rattle.date_table.specs.All.{refuse_times, all_times};
ghost use Rattle.date_table.specs.Answers.{number_of_refusal, values_of_refusal, number_of_all_dated, values_of_all_dated};
ghost use Rattle.date_table.specs.Forward.{NeverRefused};
ghost use Rattle.date_table.specs.Making.{refuse_made, made_table};
ghost use Rattle.nyerdzumak.specs.Dates.{Asked};
ghost use Rattle.nyerdzumak.specs.Given.{first_or};

use date_table::NotDated;

// Makes the date table of a conic: cut by both axes, every second point from the first on, rounded down. A bridge whose
// points rise in x and y from start to end, every coordinate from 0 to 16,777,216, is never refused with 10 or 12.
pub fn nz_date_table(src: &[f32], weight: f32, level: u32, table: &mut [u32]) -> u32
    ensures value { result ≡ refuse_made level (length table.old) (short_source src.now)
        (conic_of src.now weight BothAxes) number_of_refusal 0 }
    ensures table { table.new ≡ made_table level (conic_of src.now weight BothAxes)
        (short_source src.now) table.old }
    ensures forward { 6 ≤ length src.now
        → NeverRefused 0 level (conic_of src.now weight BothAxes) table.old result table.new }
{
    answers::number(date_table::make_from(table, src, weight, level))
}

// The date of a recorded time. Among all the times that a table dates, a later one never gets an earlier date.
pub fn nz_date_at(table: &[u32], recorded: u32, date: &mut u32) -> u32
    ensures { Asked table.now recorded result date.old date.new }
{
    let dated = date_table::date_at(table, recorded);
    answers::give(dated, date)
}

// Stores the place of the first time outside the table, if there is one; and the answer's number.
fn give_place(answer: Result<(), NotDated>, first_bad: &mut usize) -> u32
    ensures value { result ≡ number_of_all_dated answer }
    ensures place { first_bad.new ≡ first_or first_bad.old (values_of_all_dated answer) }
{
    if let Err(NotDated::OutsideAt(i)) = answer {
        *first_bad = i;
    }
    answers::number(answer)
}

// The dates of many recorded times, stored over them, by one test of the table; each is what it is alone. Where a time is
// outside the table none is dated, and the place of the first such time is stored.
pub fn nz_date_all(table: &[u32], times: &mut [u32], first_bad: &mut usize) -> u32
    ensures value { result ≡ refuse_times table.now times.old number_of_refusal (λ _. number_of_refusal TimeOutside) 0 }
    ensures times { times.new ≡ all_times table.now times.old }
    ensures place { first_bad.new ≡ first_or first_bad.old
        (refuse_times table.now times.old values_of_refusal (λ i. i ∷ []) []) }
{
    give_place(date_table::date_all(table, times), first_bad)
}
