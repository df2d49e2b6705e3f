// A line of a pad's file, by its first word.
ghost use Rattle.std.specs.Prelude.{◌≡◌, min, true, drop};
ghost use Rattle.bridge_lines.specs.Decimal.{is_whole, size_of};
ghost use Rattle.bridge_lines.specs.Pad.{bridge_or, stroke_of, other_of, pad_line_of, too_long_of};
ghost use Rattle.bridge_lines.specs.Reading.{line_of};
ghost use Rattle.bridge_lines.specs.Words.{words_of};

use super::scan::Kind;
use super::{Bad, Bridge, Fault, PadLine, decimal, reading, scan};

// What stands behind the first word.
fn past_word(text: &[u8]) -> &[u8]
    ensures { words_of result.now ≡ drop 1 (words_of text.now) }
{
    let at = scan::first(text, 0, Kind::NoBlank);
    let end = scan::first(text, at, Kind::Blank);
    &text[end..]
}

// What a bridge's numbers come to.
fn bridge(text: &[u8]) -> Result<Bridge, Bad>
    ensures { result ≡ bridge_or (line_of (words_of text.now)) }
{
    reading::line(text)?.ok_or(Bad {
        place: 1,
        why: Fault::TooFew,
    })
}

// The number that the digits of w make, where it is below 2^32, and else one that is not. All but the last digit are held
// at 10^9, which is far enough.
fn time(w: &[u8]) -> u64
    requires { is_whole w.now ≡ true }
    ensures { min result 4294967296 ≡ min (size_of w.now) 4294967296 }
{
    let last = w.len() - 1;
    10 * decimal::size(&w[0..last]) as u64 + (w[last] - b'0') as u64
}

// What a stroke's words come to.
fn stroke(text: &[u8]) -> Result<u32, Bad>
    ensures { result ≡ stroke_of (words_of text.now) }
{
    let w = scan::word(text, 0);
    if w.is_empty() {
        return Err(Bad {
            place: 1,
            why: Fault::TooFew,
        });
    }
    if !decimal::is_whole(w) {
        return Err(Bad {
            place: 1,
            why: Fault::NoNumber,
        });
    }
    let r = time(w);
    if r > 4294967295 {
        return Err(Bad {
            place: 1,
            why: Fault::OutOfRange,
        });
    }
    if !scan::word(text, 1).is_empty() {
        return Err(Bad {
            place: 2,
            why: Fault::TooMany,
        });
    }
    Ok(r as u32)
}

// What a line with another first word comes to: one that is as long as a bridge may have been one.
fn other(text: &[u8]) -> PadLine
    ensures { result ≡ other_of (words_of text.now) }
{
    if !scan::word(text, 7).is_empty() {
        return PadLine::MaybeBridge;
    }
    PadLine::OtherWord
}

// What a line without its comment comes to.
pub fn line(text: &[u8]) -> PadLine
    ensures { result ≡ pad_line_of (words_of text.now) }
{
    let w = scan::word(text, 0);
    if w.is_empty() {
        return PadLine::Blank;
    }
    if w == b"bridge".as_slice() {
        return PadLine::Bridge(bridge(past_word(text)));
    }
    if w == b"stroke".as_slice() {
        return PadLine::Stroke(stroke(past_word(text)));
    }
    other(text)
}

// What it comes to where the line is too long.
pub fn too_long(text: &[u8]) -> PadLine
    ensures { result ≡ too_long_of (words_of text.now) }
{
    let bad = Bad {
        place: 1,
        why: Fault::TooLong,
    };
    if scan::word(text, 0) == b"stroke".as_slice() {
        return PadLine::Stroke(Err(bad));
    }
    PadLine::Bridge(Err(bad))
}
