// Bridges, and strokes, as lines of text: a line is read to one of them or to what is wrong with it.
#![tactic(auto)]

ghost use Rattle.std.specs.Prelude.{◌≡◌};
ghost use Rattle.bridge_lines.specs.Pad.{pad_of};
ghost use Rattle.bridge_lines.specs.Reading.{read_of};

use conic::Conic;
use scan::Kind;

mod decimal;
mod pad;
mod reading;
mod scan;
mod words;

pub use words::{BadBridge, BadStroke};

// What is wrong with a line: a word that is no number of the kind that its place takes; a number that is too large or
// has too many decimals; too few words, eight for a bridge and one for a stroke; too many; more bytes than a line may have.
#[derive(Clone, Copy, Debug, PartialEq, Eq)]
pub enum Fault {
    NoNumber,
    OutOfRange,
    TooFew,
    TooMany,
    TooLong,
}

// A bad line: the place of the word that is wrong, missing or too much, from 1 on, and what is wrong.
#[derive(Clone, Copy, Debug, PartialEq, Eq)]
pub struct Bad {
    pub place: u32,
    pub why: Fault,
}

// A bridge, and the level that it is to be cut at.
#[derive(Clone, Copy)]
pub struct Bridge {
    pub conic: Conic,
    pub level: u32,
}

// What a line of a pad's file comes to. The places of a bad one are those of the numbers behind its first word.
#[derive(Clone, Copy)]
pub enum PadLine {
    Blank,
    Bridge(Result<Bridge, Bad>),
    Stroke(Result<u32, Bad>),
    // Another first word, and eight words or more.
    MaybeBridge,
    // Another first word, and fewer.
    OtherWord,
}

// Reads a line without its newline: `x0 y0 x1 y1 x2 y2 weight level`, with blanks between the numbers, and a comment
// from the first `#` on. A blank line is none. Coordinates are whole and at most 2^24 in size; the weight may have a point, and comes to at
// most 7 digits with at most 6 after the point; the level is whole, has no sign and comes to at most 9 digits. Zeros
// in front do not count.
pub fn read(line: &[u8]) -> Result<Option<Bridge>, Bad>
    ensures { result ≡ read_of line.now }
{
    if line.len() > 256 {
        return Err(Bad {
            place: 1,
            why: Fault::TooLong,
        });
    }
    let end = scan::first(line, 0, Kind::Hash);
    reading::line(&line[0..end])
}

// Reads a line of a pad's file without its newline: `bridge` and then the numbers as `read` takes them, or `stroke` and
// then a recorded time, whole, without a sign and at most 4294967295; blanks and comments as there. A line of more than 256
// bytes before its comment, which `read` counts and this does not, is bad: a stroke where its first word says so, and else a
// bridge, since it may have been one.
pub fn read_pad(line: &[u8]) -> PadLine
    ensures { result ≡ pad_of line.now }
{
    let end = scan::first(line, 0, Kind::Hash);
    let text = &line[0..end];
    if 256 < text.len() {
        return pad::too_long(text);
    }
    pad::line(text)
}
