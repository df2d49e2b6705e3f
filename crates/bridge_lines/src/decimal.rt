// What a word comes to as a decimal number.
ghost use Rattle.std.specs.Prelude.{◌≡◌, ◌≤◌, min, [], ◌∷◌};
ghost use Rattle.bridge_lines.specs.Decimal.{unsigned, is_whole, decimals, is_decimal, size_of, size_after};

use super::scan;
use super::scan::Kind;

// The word without its minus.
pub fn without_sign(w: &[u8]) -> &[u8]
    ensures { result.now ≡ unsigned w.now }
{
    match w {
        [b'-', rest @ ..] => rest,
        _ => w,
    }
}

// Whether w is digits alone, and at least one.
pub fn is_whole(w: &[u8]) -> bool
    ensures { result ≡ is_whole w.now }
{
    !w.is_empty() && w.iter().all(|b| b.is_ascii_digit())
}

// The bytes behind the point.
pub fn past_point(w: &[u8]) -> &[u8]
    ensures { result.now ≡ decimals w.now }
{
    let at = scan::first(w, 0, Kind::Point);
    if at < w.len() {
        return &w[at + 1..];
    }
    &w[at..]
}

// Whether w is digits, or digits, a point and digits.
pub fn is_decimal(w: &[u8]) -> bool
    ensures { result ≡ is_decimal w.now }
{
    let end = scan::first(w, 0, Kind::Point);
    is_whole(w) | (is_whole(&w[0..end]) & is_whole(past_point(w)))
}

// The number n with b behind it, where that is a digit; it is held at 10^9, which no place takes.
fn with_digit(n: u32, b: u8) -> u32
    requires { n ≤ 1000000000 }
    ensures { result ≡ min (size_after n (b ∷ [])) 1000000000 }
{
    if !b.is_ascii_digit() {
        return n;
    }
    if n < 100000000 {
        10 * n + (b - b'0') as u32
    } else {
        1000000000
    }
}

// The number that the digits of w make, held at 10^9.
pub fn size(w: &[u8]) -> u32
    ensures { result ≡ min (size_of w.now) 1000000000 }
{
    let mut n = 0;
    for b in w {
        n = with_digit(n, *b);
    }
    n
}
