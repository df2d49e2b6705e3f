// Narrowing that says what it lost.
ghost use Rattle.std.specs.Prelude.{◌≡◌};
ghost use Rattle.float_ground.specs.Narrowed.{narrowed_of, value_of, loss_of};

use super::pack;

// What narrowing answers, with the number.
#[derive(Clone, Copy)]
pub enum Narrowed {
    // The value is kept. An infinity and a NaN that are given are.
    Exact(f32),
    // It is another value, and not an infinity.
    Rounded(f32),
    // A finite value became an infinity.
    ToInfinity(f32),
}

impl Narrowed {
    // The number, whatever became of it.
    pub fn value(self) -> f32
        ensures { result ≡ value_of self }
    {
        match self {
            Narrowed::Exact(r) | Narrowed::Rounded(r) | Narrowed::ToInfinity(r) => r,
        }
    }

    // 0 where nothing was lost, 1 where it was rounded, 2 where it is gone to infinity: C's number, of `nz_narrow_told`.
    pub fn loss(self) -> u32
        ensures { result ≡ loss_of self }
    {
        match self {
            Narrowed::Exact(_) => 0,
            Narrowed::Rounded(_) => 1,
            Narrowed::ToInfinity(_) => 2,
        }
    }
}

// x rounded once to the nearest `f32`, a tie to the even one, and whether that is x: an infinity from halfway above
// the largest `f32` up, a subnormal or a zero of x's sign below the normal range, NaN for NaN.
pub fn narrow(x: f64) -> Narrowed
    ensures { result ≡ narrowed_of x }
{
    if x != x {
        return Narrowed::Exact(0.0 / 0.0);
    }
    let b = f64::to_bits(x);
    let rest = pack::narrowed(b % 0x8000_0000_0000_0000);
    let r = f32::from_bits(pack::signed(b >= 0x8000_0000_0000_0000, rest));
    if r as f64 == x {
        return Narrowed::Exact(r);
    }
    if rest == 0x7f80_0000 {
        Narrowed::ToInfinity(r) // x is finite: an infinity is kept
    } else {
        Narrowed::Rounded(r)
    }
}
