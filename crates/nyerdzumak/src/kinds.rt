// What kind of matrix it is: six lent numbers, in the order of `from_row`.
ghost use Rattle.std.specs.Prelude.{◌≡◌};
ghost use Rattle.transform.specs.Kinds as K;
ghost use Rattle.nyerdzumak.specs.Lent.{matrix_of, scale_numbers};

use super::transforms::matrix;

// Whether all six numbers are finite.
pub fn nz_transform_is_finite(m: &[f32; 6]) -> bool
    ensures { result ≡ K.is_finite (matrix_of m.now) }
{
    matrix(m).is_finite()
}

// Whether it is finite and scales by more than 2^-23 both across and up.
pub fn nz_transform_is_valid(m: &[f32; 6]) -> bool
    ensures { result ≡ K.is_valid (matrix_of m.now) }
{
    matrix(m).is_valid()
}

// Whether it does nothing.
pub fn nz_transform_is_identity(m: &[f32; 6]) -> bool
    ensures { result ≡ K.is_identity (matrix_of m.now) }
{
    matrix(m).is_identity()
}

// Whether it scales and does nothing else.
pub fn nz_transform_is_scale(m: &[f32; 6]) -> bool
    ensures { result ≡ K.is_scale (matrix_of m.now) }
{
    matrix(m).is_scale()
}

// Whether it skews and does nothing else.
pub fn nz_transform_is_skew(m: &[f32; 6]) -> bool
    ensures { result ≡ K.is_skew (matrix_of m.now) }
{
    matrix(m).is_skew()
}

// Whether it moves and does nothing else.
pub fn nz_transform_is_translate(m: &[f32; 6]) -> bool
    ensures { result ≡ K.is_translate (matrix_of m.now) }
{
    matrix(m).is_translate()
}

// Whether it scales or moves, and does not skew.
pub fn nz_transform_is_scale_translate(m: &[f32; 6]) -> bool
    ensures { result ≡ K.is_scale_translate (matrix_of m.now) }
{
    matrix(m).is_scale_translate()
}

// Whether it scales.
pub fn nz_transform_has_scale(m: &[f32; 6]) -> bool
    ensures { result ≡ K.has_scale (matrix_of m.now) }
{
    matrix(m).has_scale()
}

// Whether it skews.
pub fn nz_transform_has_skew(m: &[f32; 6]) -> bool
    ensures { result ≡ K.has_skew (matrix_of m.now) }
{
    matrix(m).has_skew()
}

// Whether it moves.
pub fn nz_transform_has_translate(m: &[f32; 6]) -> bool
    ensures { result ≡ K.has_translate (matrix_of m.now) }
{
    matrix(m).has_translate()
}

// How much it scales, across and up: roots of sums of squares, which overflow and underflow as floats do.
pub fn nz_transform_get_scale(m: &[f32; 6], out: &mut [f32; 2])
    ensures { out.new ≡ scale_numbers (K.scales_of (matrix_of m.now)) }
{
    let scale = matrix(m).get_scale();
    *out = [scale.x, scale.y];
}
