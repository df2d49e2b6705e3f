// From the table's entry to the nearest whole number, in whole numbers. Each step divides what is left by a little too much, so
// that what is found is never above the root; which of two neighbours is nearest, one comparison tells in the end.
ghost use Rattle.std.specs.Prelude.{◌+◌, ◌*◌, ◌^◌, ◌≤◌, ◌<◌};
ghost use Rattle.whole_roots.specs.Table.{Nearest};

use super::packed;

// A number r with r <= √n < r + 10.1, for an n of 31 or 32 digits. Of x, the table's root, 98304 - x is 2^31 / x and up to an
// eighth more, so that seven eighths of it, times what is left, stand for a division.
fn near(n: u32) -> u32
    requires low { 2 ^ 30 ≤ n }
    requires high { n < 2 ^ 32 }
    ensures { (2 ^ 15 ≤ result) × ((result * result ≤ n) × (n < result * result + 20 * result + 1792)) }
{
    let x = packed::entry(n >> 22) * 8;
    x + ((((n - x * x) >> 11) * (7 * (98304 - x))) >> 24)
}

// The nearest whole number to the root of n * 2^16.
pub fn nearest24(n: u32) -> u32
    requires low { 2 ^ 30 ≤ n }
    requires high { n < 2 ^ 32 }
    ensures { Nearest (n * 2 ^ 16) result }
{
    let s = near(n);
    let d = s + s;
    let t = (n - s * s) * 256;
    let p = t / (d + 11);
    let r = s * 256 + p;
    if (t - p * d) * 256 > p * p + r {
        r + 1 // n * 2^16 lies above the square of r and a half
    } else {
        r
    }
}

// A number r with r <= √n < r + 2, for an n of 53 or 54 digits.
fn near27(n: u64) -> u64
    requires low { 2 ^ 52 ≤ n }
    requires high { n < 2 ^ 54 }
    ensures { (2 ^ 26 ≤ result) × ((result * result ≤ n) × (n < result * result + 4 * result)) }
{
    let h = (n >> 22) as u32;
    let s = near(h);
    let q = ((h - s * s) * 2048 + (((n % 0x40_0000) >> 11) as u32)) / (s + s + 11);
    (s * 2048 + q) as u64
}

// The nearest whole number to the root of n * 2^52; beside `nearest24` for the reason that `root53` has.
pub fn nearest53(n: u64) -> u64
    requires low { 2 ^ 52 ≤ n }
    requires high { n < 2 ^ 54 }
    ensures { Nearest (n * 2 ^ 52) result }
{
    let s = near27(n);
    let d = s + s;
    let t = (n - s * s) * 0x400_0000;
    let p = t / (d + 2);
    let r = s * 0x400_0000 + p;
    if (t - p * d) * 0x400_0000 > p * p + r {
        r + 1 // n * 2^52 lies above the square of r and a half
    } else {
        r
    }
}
