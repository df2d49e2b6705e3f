// A line by its words.
ghost use Rattle.std.specs.Prelude.{◌≡◌, ℕ, ◌+◌, ◌<◌, true, [], slice_index_or};
ghost use Rattle.bridge_lines.specs.Reading.{has_form, limit_of, in_range, bridge_of, line_of};
ghost use Rattle.bridge_lines.specs.Decimal.{value_of};
ghost use Rattle.bridge_lines.specs.Words.{words_of};

use super::{Bad, Bridge, Fault, decimal, scan};
use conic::{Conic, Rule};
use point::Point;

// Whether w is a number of the kind that its place takes. It goes by the place itself, by which a bad line is told too: an enum
// of the three kinds would have to be made of it first.
fn has_form(place: u32, w: &[u8]) -> bool
    ensures { result ≡ has_form place w.now }
{
    if place < 7 {
        return decimal::is_whole(decimal::without_sign(w));
    }
    if place < 8 {
        return decimal::is_decimal(decimal::without_sign(w));
    }
    decimal::is_whole(w)
}

// The largest number at a place, read without its point.
fn limit(place: u32) -> u32
    ensures { result ≡ limit_of place }
{
    if place < 7 {
        16777216
    } else if place < 8 {
        9999999
    } else {
        999999999
    }
}

// Whether it is no larger, and has at most 6 decimals.
fn in_range(place: u32, w: &[u8]) -> bool
    ensures { result ≡ in_range place w.now }
{
    (decimal::size(w) <= limit(place)) & (decimal::past_point(w).len() <= 6)
}

// The value of the word with k words before it, which is in range: both numbers are floats exactly, so it is rounded once.
fn value(text: &[u8], k: u32) -> f32
    requires { in_range (k + 1) (slice_index_or (words_of text.now) k []) ≡ true }
    ensures { result ≡ value_of (slice_index_or (words_of text.now) k []) }
{
    let w = scan::word(text, k);
    let size = std::num::nearest_u32_to_f32(decimal::size(w));
    let decimals = decimal::past_point(w).len() as u32;
    let scale = std::num::nearest_u32_to_f32(10u32.pow(decimals));
    let q = size / scale;
    if decimal::without_sign(w).len() < w.len() {
        -q
    } else {
        q
    }
}

// The bridge of eight words that are in range. It is read by x, so both axes are to be in order.
fn bridge(text: &[u8]) -> Bridge
    requires { (k : ℕ) → k < 8 → in_range (k + 1) (slice_index_or (words_of text.now) k []) ≡ true }
    ensures { result ≡ bridge_of (words_of text.now) }
{
    let conic = Conic {
        p0: Point {
            x: value(text, 0),
            y: value(text, 1),
        },
        p1: Point {
            x: value(text, 2),
            y: value(text, 3),
        },
        p2: Point {
            x: value(text, 4),
            y: value(text, 5),
        },
        weight: value(text, 6),
        rule: Rule::BothAxes,
    };
    Bridge {
        conic,
        level: decimal::size(scan::word(text, 7)),
    }
}

// What a line without its comment comes to.
pub fn line(text: &[u8]) -> Result<Option<Bridge>, Bad>
    ensures { result ≡ line_of (words_of text.now) }
{
    for k in 0..8 {
        let place = k + 1;
        let w = scan::word(text, k);
        if w.is_empty() {
            if k == 0 {
                return Ok(None);
            }
            return Err(Bad {
                place,
                why: Fault::TooFew,
            });
        }
        if !has_form(place, w) {
            return Err(Bad {
                place,
                why: Fault::NoNumber,
            });
        }
        if !in_range(place, w) {
            return Err(Bad {
                place,
                why: Fault::OutOfRange,
            });
        }
    }
    if !scan::word(text, 8).is_empty() {
        return Err(Bad {
            place: 9,
            why: Fault::TooMany,
        });
    }
    Ok(Some(bridge(text)))
}
