// The pattern of an `f32` put together. `round_shift` is all that rounds.
ghost use Rattle.std.specs.Prelude.{◌≡◌, cond, ◌+◌, ◌*◌, ◌%◌, ◌^◌, ◌≤◌, ◌<◌};
ghost use Rattle.std.specs.Float.{binary32, binary64};
ghost use Rattle.std.specs.Float.Ieee.{hid, ones, top};
ghost use Rattle.std.specs.Float.Ieee.Nearest.{closest};
ghost use Rattle.float_ground.specs.Parts.{Tidy, Packed, NarrowedTo};

use super::parts;
use super::parts::Parts;

// 1 where a tie goes up: from an odd number to the even one after it.
fn up_at_tie(q: u64) -> u64
    ensures { result ≡ q % 2 }
{
    q % 2
}

// m / 2^t, to the nearest whole number, a tie to the even one.
fn round_shift(m: u64, t: u64) -> u64
    requires significand { m < 2 ^ 60 }
    requires some_bits { 1 ≤ t }
    requires most_bits { t ≤ 55 }
    ensures { result ≡ closest m (2 ^ t) }
{
    (m + ((1 << (t - 1)) - 1) + up_at_tie(m >> t)) >> t
}

// n's pattern without its sign, rounded once, a tie to the even one: the infinity's from halfway above the
// largest value up, and below the normal range as many digits as are left there. With the significand 1 the
// smallest value has the exponent 979, and a value has no room for 31 digits of a normal form.
pub fn pack(n: Parts) -> u64
    requires { Tidy n }
    ensures { Packed binary32 n result }
{
    if n.exponent < 979 - 31 {
        let t = 979 - n.exponent;
        if t > 55 {
            // less than half of the smallest value
            return 0;
        }
        return round_shift(n.significand, t);
    }
    let k = n.exponent - (979 - 31);
    if k + 1 >= 255 {
        return 0x7f80_0000;
    }
    // a carry out of the digits goes into the field
    k * 0x80_0000 + round_shift(n.significand, 31)
}

// As `narrowed`, below the normal range: the number is brought to normal form by its leading zeros, and packed.
// The smallest `f64` is 2^54 / 2^1128.
fn small(t: u64) -> u64
    requires { t < 897 * hid binary64 }
    ensures { NarrowedTo t result }
{
    let field = t >> 52;
    if field > 0 {
        let m = t % 0x10_0000_0000_0000 + 0x10_0000_0000_0000;
        return pack(parts::normal(m, field - 1));
    }
    if t > 0 {
        return pack(parts::normal(t, 0));
    }
    0
}

// An `f64`'s pattern t, without its sign, rounded once to that of an `f32`, to what `pack` would give. In both
// formats the field stands right before the digits, so a normal result is t with 896 less in the field and 29
// digits fewer. The field 897 is that of the smallest normal `f32`, and 1151 that of 2^128.
pub fn narrowed(t: u64) -> u64
    requires { t ≤ ones binary64 * hid binary64 }
    ensures { NarrowedTo t result }
{
    let field = t >> 52;
    if field < 897 {
        return small(t);
    }
    if field >= 1151 {
        return 0x7f80_0000;
    }
    // a carry out of the digits goes into the field
    round_shift(t - 0x3800_0000_0000_0000, 29)
}

// The pattern of a sign and the rest.
pub fn signed(negative: bool, rest: u64) -> u32
    requires { rest ≤ ones binary32 * hid binary32 }
    ensures { result ≡ cond negative (top binary32) 0 + rest }
{
    if negative {
        return 0x8000_0000 + rest as u32;
    }
    rest as u32
}
