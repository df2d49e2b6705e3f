// The lines of a journal as text.
ghost use Rattle.std.specs.Prelude.{◌≡◌, ◌+◌, ◌*◌, ◌<◌, ◌≤◌, ◌++◌, [], length};
ghost use Rattle.arrayvec.specs.ArrayVec.{array_vec_len};
ghost use Rattle.records.specs.Kinds.{number_of_kind};
ghost use Rattle.journal.specs.Text.{digit_of, hex_of, line_of};

use answers::Numbered;
use arrayvec::ArrayVec;
use records::{Kind, Refusal};
use std::fmt::Display;
use std::io;

// How many bytes a payload has at most, a conic's, and the line of such a record.
const PAYLOAD: usize = 28;

const ROOM: usize = 2 * PAYLOAD + 3;

// A hexadecimal digit, in upper case. By hand, since `line_of` of specs/ says each byte of a line, and a text by `{:02X}` has no
// contract here.
#[tactic(auto, unfolding(crate::specs::Text::digit_of))]
fn digit(n: u8) -> u8
    requires { n < 16 }
    ensures { result ≡ digit_of n }
{
    if n < 10 { 48 + n } else { 55 + n }
}

// Appends the two digits of each byte.
fn push_hex(line: &mut ArrayVec<u8, ROOM>, bytes: &[u8])
    requires { array_vec_len line.old + 2 * length bytes.now ≤ 59 }
    ensures items { line.new.items ≡ line.old.items ++ hex_of bytes.now }
    ensures len { array_vec_len line.new ≡ array_vec_len line.old + 2 * length bytes.now }
{
    for b in bytes {
        line.push(digit(*b / 16));
        line.push(digit(*b % 16));
    }
}

// The line of a record: its kind, a space, its payload in hexadecimal, and a newline.
fn line(kind: Kind, payload: &[u8]) -> ArrayVec<u8, ROOM>
    requires { length payload.now ≤ 28 }
    ensures { result.items ≡ line_of (number_of_kind kind) payload.now }
{
    let mut line = ArrayVec::new();
    line.push(digit(kind.number() as u8));
    line.push(b' ');
    push_hex(&mut line, payload);
    line.push(b'\n');
    line
}

// Writes the line of a record.
pub fn record(rt: &impl Print, kind: Kind, payload: &[u8]) -> io::Result<()> {
    if payload.len() <= PAYLOAD {
        rt.write_all(&line(kind, payload))?;
    }
    Ok(())
}

// Writes the last line of a journal that ends at a boundary, or in a record.
pub fn ended(rt: &impl Print, whole: bool) -> io::Result<()> {
    if whole {
        rt.println("end")
    } else {
        rt.println("short")
    }
}

// Writes the last line of a journal with a record that is refused, and its offset.
pub fn refused(rt: &impl Print, why: Refusal, offset: u64) -> io::Result<()> {
    println!(rt; "refused {} {offset}", why.number())
}

// Tells on standard error what failed, and why. Where standard error is closed nobody is told, and printing goes on.
pub fn failed<W: Display + Drop, E: Display + Drop>(rt: &impl Eprint, what: W, why: E) {
    let _ = eprintln!(rt; "{what}: {why}");
}
