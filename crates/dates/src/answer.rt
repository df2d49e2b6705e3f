// What is printed of a line.
ghost use Rattle.std.specs.Prelude.{◌≡◌, ◌*◌, take};

use answers::Numbered;
use bridge_lines::{Bad, BadBridge, BadStroke, Bridge, Fault, PadLine};
use conic::Conic;
use date_table::Refusal;
use std::fmt::Display;
use std::io;

// The numbers of a table at the highest level: two for each entry.
const ROOM: usize = 2 * ((1 << Conic::MAX_CUT_LEVEL) + 1);

// The bridge that a stroke is dated by: none before the first; the entries of its table; or why there is no table.
#[derive(Clone, Copy)]
enum AtHand {
    Nothing,
    Table(usize),
    Refused,
    Bad,
}

// The bridge at hand, and the room for its table: `date_table::make` stores a table over lent numbers and answers how many entries
// they are, so that the room is an array.
#[derive(Drop)]
pub struct Pad {
    table: [u32; ROOM],
    bridge: AtHand,
}

// Writes a refusal, by its number and in words.
fn refused(rt: &impl Print, why: Refusal) -> io::Result<()> {
    println!(rt; "refused {}: {why}", why.number())
}

// Writes what is wrong with a line, of which a comment is no part here.
fn bad(rt: &impl Print, line: u64, words: impl Display + Drop, why: Fault) -> io::Result<()> {
    let counted = match why {
        Fault::TooLong => " before its comment",
        _ => "",
    };
    println!(rt; "line {line}: {words}{counted}")
}

// The first n entries of the room for a table, which are lent to a lookup without what stands behind them.
fn entries(table: &[u32], n: usize) -> &[u32]
    ensures { result.now ≡ take (2 * n) table.now }
{
    if n <= table.len() / 2 {
        return &table[0..2 * n];
    }
    table
}

// Writes the date of a stroke by the entries of a table.
fn date(rt: &impl Print, entries: &[u32], r: u32) -> io::Result<()> {
    print!(rt; "{r} ")?;
    match date_table::date_at(entries, r) {
        Ok(date) => println!(rt; "{date}"),
        Err(why) => refused(rt, why),
    }
}

impl Pad {
    pub fn new() -> Pad {
        Pad {
            table: [0; ROOM],
            bridge: AtHand::Nothing,
        }
    }

    // Makes the table of a bridge. Nothing is written of a good one.
    fn make(&mut self, rt: &impl Print, line: u64, b: Bridge) -> io::Result<()> {
        self.bridge = match date_table::make(&mut self.table, b.conic, b.level) {
            Ok(n) => AtHand::Table(n),
            Err(why) => {
                print!(rt; "line {line}: bridge ")?;
                refused(rt, why)?;
                AtHand::Refused
            }
        };
        Ok(())
    }

    // Writes what becomes of a stroke; only a table that was made of the bridge before it dates it.
    fn stroke(&self, rt: &impl Print, line: u64, r: u32) -> io::Result<()> {
        match self.bridge {
            AtHand::Table(n) => date(rt, entries(&self.table, n), r),
            AtHand::Nothing => println!(rt; "line {line}: no bridge before this stroke"),
            AtHand::Refused => println!(rt;
                "line {line}: the bridge before this stroke was refused"
            ),
            AtHand::Bad => println!(rt; "line {line}: the bridge before this stroke is bad"),
        }
    }

    // Writes what the line of this number comes to. A bad stroke, or a line that is neither and too short for a bridge, leaves the
    // bridge before it.
    pub fn show(&mut self, rt: &impl Print, line: u64, text: &[u8]) -> io::Result<()> {
        match bridge_lines::read_pad(text) {
            PadLine::Blank => Ok(()),
            PadLine::Bridge(Ok(b)) => self.make(rt, line, b),
            PadLine::Bridge(Err(why)) => {
                self.bridge = AtHand::Bad;
                bad(rt, line, BadBridge(why), why.why)
            }
            PadLine::Stroke(Ok(r)) => self.stroke(rt, line, r),
            PadLine::Stroke(Err(why)) => bad(rt, line, BadStroke(why), why.why),
            PadLine::MaybeBridge => {
                self.bridge = AtHand::Bad;
                println!(rt; "line {line}: the first word is neither bridge nor stroke")
            }
            PadLine::OtherWord => {
                println!(rt; "line {line}: the first word is neither bridge nor stroke")
            }
        }
    }
}
