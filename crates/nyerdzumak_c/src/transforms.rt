// Exports the transforms' calls, each one call of the function of the same name of nyerdzumak, with its contract:
// nz_transform_identity, nz_transform_from_translate, nz_transform_from_scale, nz_transform_from_skew,
// nz_transform_pre_concat, nz_transform_post_concat, nz_transform_pre_scale, nz_transform_post_scale,
// nz_transform_pre_translate, nz_transform_post_translate, nz_transform_invert, nz_transform_map_point,
// nz_transform_map_numbers.
ghost use Rattle.std.specs.Prelude.{◌≡◌, [], ◌∷◌};
ghost use Rattle.float_laws.specs.Narrow.{some_lost};
ghost use Rattle.point.specs.Numbers.{flat, point_at};
ghost use Rattle.transform.specs.Inverse.{number_of_inversion, values_of_inversion, flags_of_inversion, invert_of};
ghost use Rattle.transform.specs.Mapped.{map_point};
ghost use Rattle.transform.specs.Product.{concat_of, concat_narrows};
ghost use Rattle.transform.specs.Row.{row_numbers, identity_row, translate_of, scale_of, skew_of};
ghost use Rattle.mapping.specs.Numbers.{mapping_number, mapped_numbers};
ghost use Rattle.nyerdzumak.specs.Lent.{matrix_of};
ghost use Rattle.nyerdzumak.specs.Given.{first_or, filled_or};

// The matrix that moves nothing.
#[unsafe(no_mangle)]
pub extern "C" fn nz_transform_identity(out: &mut [f32; 6])
    ensures { out.new ≡ row_numbers identity_row }
{
    nyerdzumak::transforms::nz_transform_identity(out);
}

// The matrix that moves by (tx, ty).
#[unsafe(no_mangle)]
pub extern "C" fn nz_transform_from_translate(tx: f32, ty: f32, out: &mut [f32; 6])
    ensures { out.new ≡ row_numbers (translate_of tx ty) }
{
    nyerdzumak::transforms::nz_transform_from_translate(tx, ty, out);
}

// The matrix that scales by sx across and by sy up.
#[unsafe(no_mangle)]
pub extern "C" fn nz_transform_from_scale(sx: f32, sy: f32, out: &mut [f32; 6])
    ensures { out.new ≡ row_numbers (scale_of sx sy) }
{
    nyerdzumak::transforms::nz_transform_from_scale(sx, sy, out);
}

// The matrix that skews by kx across and by ky up.
#[unsafe(no_mangle)]
pub extern "C" fn nz_transform_from_skew(kx: f32, ky: f32, out: &mut [f32; 6])
    ensures { out.new ≡ row_numbers (skew_of kx ky) }
{
    nyerdzumak::transforms::nz_transform_from_skew(kx, ky, out);
}

// What b does, and then a.
#[unsafe(no_mangle)]
pub extern "C" fn nz_transform_pre_concat(
    a: &[f32; 6],
    b: &[f32; 6],
    out: &mut [f32; 6],
    rounded: &mut bool,
)
    ensures out_after { out.new ≡ row_numbers (concat_of (matrix_of a.now) (matrix_of b.now)) }
    ensures rounded { rounded.new ≡ some_lost (concat_narrows (matrix_of a.now) (matrix_of b.now)) }
{
    nyerdzumak::transforms::nz_transform_pre_concat(a, b, out, rounded);
}

// What a does, and then b.
#[unsafe(no_mangle)]
pub extern "C" fn nz_transform_post_concat(
    a: &[f32; 6],
    b: &[f32; 6],
    out: &mut [f32; 6],
    rounded: &mut bool,
)
    ensures out_after { out.new ≡ row_numbers (concat_of (matrix_of b.now) (matrix_of a.now)) }
    ensures rounded { rounded.new ≡ some_lost (concat_narrows (matrix_of b.now) (matrix_of a.now)) }
{
    nyerdzumak::transforms::nz_transform_post_concat(a, b, out, rounded);
}

// Scales, and then does what m does.
#[unsafe(no_mangle)]
pub extern "C" fn nz_transform_pre_scale(
    m: &[f32; 6],
    sx: f32,
    sy: f32,
    out: &mut [f32; 6],
    rounded: &mut bool,
)
    ensures out_after { out.new ≡ row_numbers (concat_of (matrix_of m.now) (scale_of sx sy)) }
    ensures rounded { rounded.new ≡ some_lost (concat_narrows (matrix_of m.now) (scale_of sx sy)) }
{
    nyerdzumak::transforms::nz_transform_pre_scale(m, sx, sy, out, rounded);
}

// Does what m does, and then scales.
#[unsafe(no_mangle)]
pub extern "C" fn nz_transform_post_scale(
    m: &[f32; 6],
    sx: f32,
    sy: f32,
    out: &mut [f32; 6],
    rounded: &mut bool,
)
    ensures out_after { out.new ≡ row_numbers (concat_of (scale_of sx sy) (matrix_of m.now)) }
    ensures rounded { rounded.new ≡ some_lost (concat_narrows (scale_of sx sy) (matrix_of m.now)) }
{
    nyerdzumak::transforms::nz_transform_post_scale(m, sx, sy, out, rounded);
}

// Moves, and then does what m does.
#[unsafe(no_mangle)]
pub extern "C" fn nz_transform_pre_translate(
    m: &[f32; 6],
    tx: f32,
    ty: f32,
    out: &mut [f32; 6],
    rounded: &mut bool,
)
    ensures out_after { out.new ≡ row_numbers (concat_of (matrix_of m.now) (translate_of tx ty)) }
    ensures rounded { rounded.new ≡ some_lost (concat_narrows (matrix_of m.now) (translate_of tx ty)) }
{
    nyerdzumak::transforms::nz_transform_pre_translate(m, tx, ty, out, rounded);
}

// Does what m does, and then moves.
#[unsafe(no_mangle)]
pub extern "C" fn nz_transform_post_translate(
    m: &[f32; 6],
    tx: f32,
    ty: f32,
    out: &mut [f32; 6],
    rounded: &mut bool,
)
    ensures out_after { out.new ≡ row_numbers (concat_of (translate_of tx ty) (matrix_of m.now)) }
    ensures rounded { rounded.new ≡ some_lost (concat_narrows (translate_of tx ty) (matrix_of m.now)) }
{
    nyerdzumak::transforms::nz_transform_post_translate(m, tx, ty, out, rounded);
}

// The matrix that undoes m, if all of it is finite.
#[unsafe(no_mangle)]
pub extern "C" fn nz_transform_invert(m: &[f32; 6], out: &mut [f32; 6], rounded: &mut bool) -> u32
    ensures value { result ≡ number_of_inversion (invert_of (matrix_of m.now)) }
    ensures out { out.new ≡ filled_or out.old (values_of_inversion (invert_of (matrix_of m.now))) }
    ensures rounded { rounded.new ≡ first_or rounded.old (flags_of_inversion (invert_of (matrix_of m.now))) }
{
    nyerdzumak::transforms::nz_transform_invert(m, out, rounded)
}

// Maps one point, x and y, where it stands.
#[unsafe(no_mangle)]
pub extern "C" fn nz_transform_map_point(m: &[f32; 6], point: &mut [f32; 2])
    ensures { point.new ≡ flat (map_point (matrix_of m.now) (point_at point.old 0) ∷ []) }
{
    nyerdzumak::transforms::nz_transform_map_point(m, point);
}

// Maps each point of a buffer that holds x, y, x, y.
#[unsafe(no_mangle)]
pub extern "C" fn nz_transform_map_numbers(m: &[f32; 6], numbers: &mut [f32]) -> u32
    ensures value { result ≡ mapping_number numbers.old }
    ensures buffer { numbers.new ≡ mapped_numbers (matrix_of m.now) numbers.old }
{
    nyerdzumak::transforms::nz_transform_map_numbers(m, numbers)
}
