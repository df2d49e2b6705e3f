// The float ground: `is_finite`, `abs`, `as` between `f32` and `f64`, and `sqrt`, as the code of tiny-skia-path 0.12.0 calls them
// (`scalar.rs`, `path_geometry.rs`, `transform.rs`). Narrowing and roots are not the library's: the wrong versions in must-fail/
// speak of the digits here, and its root is an instruction or C's `sqrtf`, which would have to be trusted.
#![tactic(auto)]

ghost use Rattle.std.specs.Prelude.{◌≡◌};
ghost use Rattle.std.specs.Float.{binary32, binary64};
ghost use Rattle.std.specs.Float.Ieee.Scale.{finite};
ghost use Rattle.float_laws.specs.Absolute.{abs_of};
ghost use Rattle.float_laws.specs.Root.{Root, root_of};

pub mod narrowing;
mod pack;
mod parts;
mod root;

pub use narrowing::{Narrowed, narrow};

// Whether x is a number: neither NaN nor an infinity. By two comparisons: the library's `is_finite` subtracts first, and a
// cut that waits for it is slower.
pub fn is_finite_f32(x: f32) -> bool
    ensures { result ≡ finite x }
{
    (f32::NEG_INFINITY < x) & (x < f32::INFINITY)
}

// Whether x is a number: neither NaN nor an infinity. A form of `is_finite_f32` for both formats would take a trait with the ends of
// each, and is longer than the two.
pub fn is_finite_f64(x: f64) -> bool
    ensures { result ≡ finite x }
{
    (f64::NEG_INFINITY < x) & (x < f64::INFINITY)
}

// x without its sign, a zero's too; NaN for NaN. By the pattern: the library's `abs` compares twice, and takes a quarter
// longer.
pub fn abs_f32(x: f32) -> f32
    ensures { result ≡ abs_of x }
{
    if x != x {
        return x;
    }
    f32::from_bits(f32::to_bits(x) % 0x8000_0000)
}

// The same number as an `f64`; NaN for NaN.
pub fn widen(x: f32) -> f64
    ensures { result ≡ x }
{
    std::num::f32_to_f64_with_nan(x)
}

// x's square root, rounded once: a zero for a zero, of the same sign, NaN for a NaN and for a number
// below zero, and the infinity for the infinity.
pub fn sqrt_f32(x: f32) -> f32
    ensures equal { result ≡ root_of binary32 x }
    ensures nearest { Root binary32 x result }
{
    if (f32::MIN_POSITIVE <= x) & (x < f32::INFINITY) {
        return root::normal32(f32::to_bits(x));
    }
    if (0.0 < x) & (x < f32::MIN_POSITIVE) {
        return root::subnormal32(f32::to_bits(x));
    }
    if x < 0.0 {
        return 0.0 / 0.0;
    }
    x // a zero, the infinity or a NaN: its own root
}

// x's square root, rounded once, as `sqrt_f32` has it. One form for both formats, of these and of `root`, would take a trait
// with the order, the patterns, the ends and the whole root of each, and is longer than the two.
pub fn sqrt_f64(x: f64) -> f64
    ensures equal { result ≡ root_of binary64 x }
    ensures nearest { Root binary64 x result }
{
    if (f64::MIN_POSITIVE <= x) & (x < f64::INFINITY) {
        return root::normal64(f64::to_bits(x));
    }
    if (0.0 < x) & (x < f64::MIN_POSITIVE) {
        return root::subnormal64(f64::to_bits(x));
    }
    if x < 0.0 {
        return 0.0 / 0.0;
    }
    x // as in `sqrt_f32`
}
