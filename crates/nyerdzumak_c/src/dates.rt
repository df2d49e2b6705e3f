// Exports the calls for dates, each one call of the function of the same name of nyerdzumak, with its contract:
// nz_date_table, nz_date_at, nz_date_all.
ghost use Rattle.std.specs.Prelude.{◌≡◌, [], ◌∷◌, ◌≤◌, length};
ghost use Rattle.conic.specs.declared.Rule.TheVariants.{BothAxes};
ghost use Rattle.conic.specs.Source.{conic_of, short_source};
ghost use Rattle.date_table.specs.declared.Refusal.TheVariants.{TimeOutside};
ghost use Rattle.date_table.specs.All.{refuse_times, all_times};
ghost use Rattle.date_table.specs.Answers.{number_of_refusal, values_of_refusal};
ghost use Rattle.date_table.specs.Forward.{NeverRefused};
ghost use Rattle.date_table.specs.Making.{refuse_made, made_table};
ghost use Rattle.nyerdzumak.specs.Dates.{Asked};
ghost use Rattle.nyerdzumak.specs.Given.{first_or};

// Makes the date table of a conic: cut by both axes, every second point from the first on, rounded down. A bridge whose
// points rise in x and y from start to end, every coordinate from 0 to 16,777,216, is never refused with 10 or 12.
#[unsafe(no_mangle)]
pub extern "C" fn nz_date_table(src: &[f32], weight: f32, level: u32, table: &mut [u32]) -> u32
    ensures value { result ≡ refuse_made level (length table.old) (short_source src.now)
        (conic_of src.now weight BothAxes) number_of_refusal 0 }
    ensures table { table.new ≡ made_table level (conic_of src.now weight BothAxes)
        (short_source src.now) table.old }
    ensures forward { 6 ≤ length src.now
        → NeverRefused 0 level (conic_of src.now weight BothAxes) table.old result table.new }
{
    nyerdzumak::dates::nz_date_table(src, weight, level, table)
}

// The date of a recorded time. Among all the times that a table dates, a later one never gets an earlier date.
#[unsafe(no_mangle)]
pub extern "C" fn nz_date_at(table: &[u32], recorded: u32, date: &mut u32) -> u32
    ensures { Asked table.now recorded result date.old date.new }
{
    nyerdzumak::dates::nz_date_at(table, recorded, date)
}

// The dates of many recorded times, stored over them, by one test of the table; each is what it is alone. Where a time is
// outside the table none is dated, and the place of the first such time is stored.
#[unsafe(no_mangle)]
pub extern "C" fn nz_date_all(table: &[u32], times: &mut [u32], first_bad: &mut usize) -> u32
    ensures value { result ≡ refuse_times table.now times.old number_of_refusal (λ _. number_of_refusal TimeOutside) 0 }
    ensures times { times.new ≡ all_times table.now times.old }
    ensures place { first_bad.new ≡ first_or first_bad.old
        (refuse_times table.now times.old values_of_refusal (λ i. i ∷ []) []) }
{
    nyerdzumak::dates::nz_date_all(table, times, first_bad)
}
