// A number in normal form.
ghost use Rattle.std.specs.Prelude.{◌+◌, ◌^◌, ◌≤◌, ◌<◌};
ghost use Rattle.float_ground.specs.Parts.{Normal};

// significand * 2^exponent / 2^1128, with the leading digit of the significand at 2^54: two digits more
// than an `f64` has, one to round by and one for whatever lies below it.
#[derive(Clone, Copy)]
pub struct Parts {
    pub exponent: u64,
    pub significand: u64,
}

// m * 2^j of the smallest `f64`s in normal form, the smallest being 2^54 / 2^1128: m's leading zeros give the shift.
pub fn normal(m: u64, j: u64) -> Parts
    requires above_zero { 0 < m }
    requires significand { m < 2 ^ 53 }
    requires exponent { j ≤ 2046 }
    ensures { Normal m (j + 54) result }
{
    let z = (u64::leading_zeros(m) - 9) as u64;
    Parts {
        exponent: (j + 54) - z,
        significand: m << z,
    }
}
