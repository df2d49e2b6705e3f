// The figures of dates.
use super::shown;
use super::shown::Refused;
use date_table::NotDated;
use std::io;

// x and y of each point: one bend, one that falls, and one that ends one step above the largest number.
const BEND: [f32; 6] = [0.0, 0.0, 4.0, 0.0, 4.0, 4.0];

const FALL: [f32; 6] = [0.0, 4.0, 4.0, 4.0, 4.0, 0.0];

const FAR: [f32; 6] = [0.0, 0.0, 4.0, 0.0, 16777218.0, 4.0];

// Ends a line by these numbers.
fn all(rt: &impl Print, numbers: &[u32]) -> io::Result<()> {
    for n in numbers {
        print!(rt; " {n}")?;
    }
    println!(rt)
}

// The table, which fills its room.
fn table(
    rt: &impl Print,
    name: &str,
    out: &mut [u32],
    src: &[f32],
    weight: f32,
    level: u32,
) -> io::Result<()> {
    print!(rt; "date table{name}:")?;
    match date_table::make_from(out, src, weight, level) {
        Ok(_) => all(rt, out),
        Err(why) => println!(rt; " {}", Refused(why)),
    }
}

fn date(rt: &impl Print, name: &str, entries: &[u32], r: u32) -> io::Result<()> {
    shown::answered(rt, name, date_table::date_at(entries, r))
}

fn dates(rt: &impl Print, name: &str, entries: &[u32], times: &mut [u32]) -> io::Result<()> {
    print!(rt; "dates of {name} by one call:")?;
    match date_table::date_all(entries, times) {
        Ok(()) => all(rt, times),
        Err(why) => {
            print!(rt; " {}", Refused(why))?;
            if let NotDated::OutsideAt(i) = why {
                print!(rt; " at {i}")?;
            }
            println!(rt)
        }
    }
}

fn lookups(rt: &impl Print, entries: &[u32]) -> io::Result<()> {
    date(rt, "date of 0", entries, 0)?;
    date(rt, "date of 1", entries, 1)?;
    date(rt, "date of 2", entries, 2)?;
    date(rt, "date of 3", entries, 3)?;
    date(rt, "date of 4", entries, 4)?;
    date(rt, "date of 5", entries, 5)?;
    dates(rt, "0 to 4", entries, &mut [0, 1, 2, 3, 4])?;
    dates(rt, "0, 1, 5, 6", entries, &mut [0, 1, 5, 6])
}

// Tables that are none.
fn bad(rt: &impl Print) -> io::Result<()> {
    date(rt, "date by no entry", &[], 0)?;
    date(rt, "date by half an entry", &[0, 0, 3], 0)?;
    date(rt, "date by 16777217", &[5, 0, 4, 16777217], 4)?;
    date(rt, "date by a fall", &[5, 0, 4, 16777216], 4)
}

pub fn show(rt: &impl Print) -> io::Result<()> {
    let mut six = [0u32; 6];
    table(rt, ", weight 1, level 1", &mut six, &BEND, 1.0, 1)?;
    lookups(rt, &six)?;
    let nan = 0.0 / 0.0;
    table(rt, ", NaN weight, level 1", &mut six, &BEND, nan, 1)?;
    table(rt, " at level 7", &mut six, &BEND, 1.0, 7)?;
    table(rt, " at level 2 in six numbers", &mut six, &BEND, 1.0, 2)?;
    table(rt, " up to 16777218", &mut six, &FAR, 1.0, 1)?;
    table(rt, " of a fall", &mut six, &FALL, 1.0, 1)?;
    bad(rt)
}
