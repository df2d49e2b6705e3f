// What is wrong with a line, in words.
ghost use Rattle.std.specs.Prelude.{Some};
ghost use Rattle.std.specs.Fmt.{DisplaysOnOk};
ghost use Rattle.bridge_lines.specs.Faults.{told_of};

use super::{Bad, Fault};
use std::fmt;
use std::fmt::Display;

// A bridge that is bad.
#[derive(Clone, Copy, Drop)]
pub struct BadBridge(pub Bad);

// A stroke that is bad.
#[derive(Clone, Copy, Drop)]
pub struct BadStroke(pub Bad);

impl Display for BadBridge {
    ghost use Rattle.std.specs.Prelude.{Some};
    ghost use Rattle.bridge_lines.specs.Faults.{words_of_bridge};

    ghost output = { λ bad. Some (words_of_bridge bad.0) };

    fn fmt<W: fmt::Write>(&self, f: &mut fmt::Formatter<W>) -> fmt::Result {
        let wanted = match self.0.place {
            0..=6 => "no whole number from -16777216 to 16777216",
            7 => {
                "no number such as 2 or -0.75, with at most 7 digits, at most 6 of them behind the point"
            }
            _ => "no whole number from 0 to 999999999",
        };
        tell(f, self.0, wanted, 8)
    }
}

impl Display for BadStroke {
    ghost use Rattle.std.specs.Prelude.{Some};
    ghost use Rattle.bridge_lines.specs.Faults.{words_of_stroke};

    ghost output = { λ bad. Some (words_of_stroke bad.0) };

    fn fmt<W: fmt::Write>(&self, f: &mut fmt::Formatter<W>) -> fmt::Result {
        tell(f, self.0, "no whole number from 0 to 4294967295", 1)
    }
}

// By what a number at its place is to be, and the place of the last one.
#[tactic(auto, unfolding(crate::specs::Faults::told_of))]
fn tell<W: fmt::Write>(f: &mut fmt::Formatter<W>, bad: Bad, wanted: &str, last: u32) -> fmt::Result
    ensures { DisplaysOnOk W.write_str_gives f.old result (Some (told_of bad.why bad.place wanted.now last)) f.new }
{
    let place = bad.place;
    match bad.why {
        Fault::NoNumber => write!(f, "number {place} is {wanted}"),
        Fault::OutOfRange => write!(f, "number {place} is out of range: it is {wanted}"),
        Fault::TooFew => write!(f, "too few numbers: number {place} is missing"),
        Fault::TooMany => write!(f, "too many numbers: number {last} is the last"),
        Fault::TooLong => write!(f, "too long: a line has at most 256 bytes"),
    }
}
