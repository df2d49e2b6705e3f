// The list, read record by record from standard input and counted part by part.
use super::calls;
use super::record::Record;
use std::io;
use std::io::Input;

// Of the part at hand: how many records there were, and in how many the answer was the original's.
#[derive(Clone, Copy)]
pub struct Tally {
    pub all: u64,
    pub same: u64,
}

impl Tally {
    pub const NOTHING: Tally = Tally { all: 0, same: 0 };

    // With one record more.
    fn counted(self, r: &Record) -> Tally {
        let same = calls::replayed(r) == r.given();
        Tally {
            all: self.all.wrapping_add(1),
            same: self.same.wrapping_add(same as u64),
        }
    }
}

// Writes the rest of the line of a part, after its name.
fn line(rt: &impl Print, t: Tally) -> io::Result<()> {
    println!(rt; " {} of {}", t.same, t.all)
}

// What is counted where a record names those that follow: the line of the part at hand is ended, and that of the next begun.
fn turned(rt: &impl Print, t: Tally, r: &Record) -> io::Result<Tally> {
    if t.all > 0 {
        line(rt, t)?;
    }
    rt.write_all(r.title())?;
    Ok(Tally::NOTHING)
}

// A proved loop has to end, and nothing says that the input does: its turns are counted by a number that no list uses up.
pub fn run(rt: &(impl Input + Print)) -> io::Result<()> {
    let mut input = rt.reader();
    let mut t = Tally::NOTHING;
    for _ in 0..u64::MAX {
        let Some(r) = Record::read(&mut input)? else {
            return line(rt, t);
        };
        t = if r.is_title() {
            turned(rt, t, &r)?
        } else {
            t.counted(&r)
        };
    }
    Ok(())
}
