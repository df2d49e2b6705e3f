// Exports the questions of what kind of matrix it is, each one call of the function of the same name of nyerdzumak, with
// its contract: nz_transform_is_finite, nz_transform_is_valid, nz_transform_is_identity, nz_transform_is_scale,
// nz_transform_is_skew, nz_transform_is_translate, nz_transform_is_scale_translate, nz_transform_has_scale,
// nz_transform_has_skew, nz_transform_has_translate, nz_transform_get_scale.
ghost use Rattle.std.specs.Prelude.{◌≡◌};
ghost use Rattle.transform.specs.Kinds as K;
ghost use Rattle.nyerdzumak.specs.Lent.{matrix_of, scale_numbers};

// Whether all six numbers are finite.
#[unsafe(no_mangle)]
pub extern "C" fn nz_transform_is_finite(m: &[f32; 6]) -> bool
    ensures { result ≡ K.is_finite (matrix_of m.now) }
{
    nyerdzumak::kinds::nz_transform_is_finite(m)
}

// Whether it is finite and scales by more than 2^-23 both across and up.
#[unsafe(no_mangle)]
pub extern "C" fn nz_transform_is_valid(m: &[f32; 6]) -> bool
    ensures { result ≡ K.is_valid (matrix_of m.now) }
{
    nyerdzumak::kinds::nz_transform_is_valid(m)
}

// Whether it does nothing.
#[unsafe(no_mangle)]
pub extern "C" fn nz_transform_is_identity(m: &[f32; 6]) -> bool
    ensures { result ≡ K.is_identity (matrix_of m.now) }
{
    nyerdzumak::kinds::nz_transform_is_identity(m)
}

// Whether it scales and does nothing else.
#[unsafe(no_mangle)]
pub extern "C" fn nz_transform_is_scale(m: &[f32; 6]) -> bool
    ensures { result ≡ K.is_scale (matrix_of m.now) }
{
    nyerdzumak::kinds::nz_transform_is_scale(m)
}

// Whether it skews and does nothing else.
#[unsafe(no_mangle)]
pub extern "C" fn nz_transform_is_skew(m: &[f32; 6]) -> bool
    ensures { result ≡ K.is_skew (matrix_of m.now) }
{
    nyerdzumak::kinds::nz_transform_is_skew(m)
}

// Whether it moves and does nothing else.
#[unsafe(no_mangle)]
pub extern "C" fn nz_transform_is_translate(m: &[f32; 6]) -> bool
    ensures { result ≡ K.is_translate (matrix_of m.now) }
{
    nyerdzumak::kinds::nz_transform_is_translate(m)
}

// Whether it scales or moves, and does not skew.
#[unsafe(no_mangle)]
pub extern "C" fn nz_transform_is_scale_translate(m: &[f32; 6]) -> bool
    ensures { result ≡ K.is_scale_translate (matrix_of m.now) }
{
    nyerdzumak::kinds::nz_transform_is_scale_translate(m)
}

// Whether it scales.
#[unsafe(no_mangle)]
pub extern "C" fn nz_transform_has_scale(m: &[f32; 6]) -> bool
    ensures { result ≡ K.has_scale (matrix_of m.now) }
{
    nyerdzumak::kinds::nz_transform_has_scale(m)
}

// Whether it skews.
#[unsafe(no_mangle)]
pub extern "C" fn nz_transform_has_skew(m: &[f32; 6]) -> bool
    ensures { result ≡ K.has_skew (matrix_of m.now) }
{
    nyerdzumak::kinds::nz_transform_has_skew(m)
}

// Whether it moves.
#[unsafe(no_mangle)]
pub extern "C" fn nz_transform_has_translate(m: &[f32; 6]) -> bool
    ensures { result ≡ K.has_translate (matrix_of m.now) }
{
    nyerdzumak::kinds::nz_transform_has_translate(m)
}

// How much it scales, across and up: roots of sums of squares, which overflow and underflow as floats do.
#[unsafe(no_mangle)]
pub extern "C" fn nz_transform_get_scale(m: &[f32; 6], out: &mut [f32; 2])
    ensures { out.new ≡ scale_numbers (K.scales_of (matrix_of m.now)) }
{
    nyerdzumak::kinds::nz_transform_get_scale(m, out);
}
