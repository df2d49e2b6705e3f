// The transforms' calls. A matrix is six lent numbers, in the order of `from_row`: sx, ky, kx, sy, tx, ty.
ghost use Rattle.std.specs.Prelude.{◌≡◌, [], ◌∷◌};
ghost use Rattle.float_laws.specs.Narrow.{some_lost};
ghost use Rattle.point.specs.Numbers.{flat, point_at};
ghost use Rattle.transform.specs.Inverse.{number_of_inversion, values_of_inversion, flags_of_inversion, invert_of};
ghost use Rattle.transform.specs.Mapped.{map_point};
ghost use Rattle.transform.specs.Product.{concat_of, concat_narrows};
ghost use Rattle.transform.specs.Row.{row_numbers, identity_row, translate_of, scale_of, skew_of};
ghost use Rattle.mapping.specs.Numbers.{mapping_number, mapped_numbers};
ghost use Rattle.nyerdzumak.specs.Lent.{matrix_of};
ghost use Rattle.nyerdzumak.specs.Given.{first_or, filled_or};

use answers::Numbered;
use point::Point;
use transform::{Computed, Refusal, Transform};

// A function and no `From`, since neither type is of this crate.
pub(crate) fn matrix(m: &[f32; 6]) -> Transform
    ensures { result ≡ matrix_of m.now }
{
    Transform::from_row(m[0], m[1], m[2], m[3], m[4], m[5])
}

// Stores a matrix.
fn give(t: Transform, out: &mut [f32; 6])
    ensures { out.new ≡ row_numbers t }
{
    *out = [t.sx, t.ky, t.kx, t.sy, t.tx, t.ty];
}

// Stores a matrix that was computed, and its flag.
fn give_told(c: Computed, out: &mut [f32; 6], rounded: &mut bool)
    ensures out_after { out.new ≡ row_numbers c.transform }
    ensures rounded { rounded.new ≡ c.rounded }
{
    give(c.transform, out);
    *rounded = c.rounded;
}

// The matrix that moves nothing.
pub fn nz_transform_identity(out: &mut [f32; 6])
    ensures { out.new ≡ row_numbers identity_row }
{
    give(Transform::identity(), out);
}

// The matrix that moves by (tx, ty).
pub fn nz_transform_from_translate(tx: f32, ty: f32, out: &mut [f32; 6])
    ensures { out.new ≡ row_numbers (translate_of tx ty) }
{
    give(Transform::from_translate(tx, ty), out);
}

// The matrix that scales by sx across and by sy up.
pub fn nz_transform_from_scale(sx: f32, sy: f32, out: &mut [f32; 6])
    ensures { out.new ≡ row_numbers (scale_of sx sy) }
{
    give(Transform::from_scale(sx, sy), out);
}

// The matrix that skews by kx across and by ky up.
pub fn nz_transform_from_skew(kx: f32, ky: f32, out: &mut [f32; 6])
    ensures { out.new ≡ row_numbers (skew_of kx ky) }
{
    give(Transform::from_skew(kx, ky), out);
}

// What b does, and then a.
pub fn nz_transform_pre_concat(a: &[f32; 6], b: &[f32; 6], out: &mut [f32; 6], rounded: &mut bool)
    ensures out_after { out.new ≡ row_numbers (concat_of (matrix_of a.now) (matrix_of b.now)) }
    ensures rounded { rounded.new ≡ some_lost (concat_narrows (matrix_of a.now) (matrix_of b.now)) }
{
    give_told(matrix(a).pre_concat(matrix(b)), out, rounded);
}

// What a does, and then b.
pub fn nz_transform_post_concat(a: &[f32; 6], b: &[f32; 6], out: &mut [f32; 6], rounded: &mut bool)
    ensures out_after { out.new ≡ row_numbers (concat_of (matrix_of b.now) (matrix_of a.now)) }
    ensures rounded { rounded.new ≡ some_lost (concat_narrows (matrix_of b.now) (matrix_of a.now)) }
{
    give_told(matrix(a).post_concat(matrix(b)), out, rounded);
}

// Scales, and then does what m does.
pub fn nz_transform_pre_scale(
    m: &[f32; 6],
    sx: f32,
    sy: f32,
    out: &mut [f32; 6],
    rounded: &mut bool,
)
    ensures out_after { out.new ≡ row_numbers (concat_of (matrix_of m.now) (scale_of sx sy)) }
    ensures rounded { rounded.new ≡ some_lost (concat_narrows (matrix_of m.now) (scale_of sx sy)) }
{
    give_told(matrix(m).pre_scale(sx, sy), out, rounded);
}

// Does what m does, and then scales.
pub fn nz_transform_post_scale(
    m: &[f32; 6],
    sx: f32,
    sy: f32,
    out: &mut [f32; 6],
    rounded: &mut bool,
)
    ensures out_after { out.new ≡ row_numbers (concat_of (scale_of sx sy) (matrix_of m.now)) }
    ensures rounded { rounded.new ≡ some_lost (concat_narrows (scale_of sx sy) (matrix_of m.now)) }
{
    give_told(matrix(m).post_scale(sx, sy), out, rounded);
}

// Moves, and then does what m does.
pub fn nz_transform_pre_translate(
    m: &[f32; 6],
    tx: f32,
    ty: f32,
    out: &mut [f32; 6],
    rounded: &mut bool,
)
    ensures out_after { out.new ≡ row_numbers (concat_of (matrix_of m.now) (translate_of tx ty)) }
    ensures rounded { rounded.new ≡ some_lost (concat_narrows (matrix_of m.now) (translate_of tx ty)) }
{
    give_told(matrix(m).pre_translate(tx, ty), out, rounded);
}

// Does what m does, and then moves.
pub fn nz_transform_post_translate(
    m: &[f32; 6],
    tx: f32,
    ty: f32,
    out: &mut [f32; 6],
    rounded: &mut bool,
)
    ensures out_after { out.new ≡ row_numbers (concat_of (translate_of tx ty) (matrix_of m.now)) }
    ensures rounded { rounded.new ≡ some_lost (concat_narrows (translate_of tx ty) (matrix_of m.now)) }
{
    give_told(matrix(m).post_translate(tx, ty), out, rounded);
}

// Stores an inverse and its flag, if there is one; and the answer's number. Not by `answers::give`: it is stored in two places.
fn give_inverse(answer: Result<Computed, Refusal>, out: &mut [f32; 6], rounded: &mut bool) -> u32
    ensures value { result ≡ number_of_inversion answer }
    ensures out { out.new ≡ filled_or out.old (values_of_inversion answer) }
    ensures rounded { rounded.new ≡ first_or rounded.old (flags_of_inversion answer) }
{
    match answer {
        Ok(inverse) => {
            give_told(inverse, out, rounded);
            0
        }
        Err(why) => why.number(),
    }
}

// The matrix that undoes m, if all of it is finite.
pub fn nz_transform_invert(m: &[f32; 6], out: &mut [f32; 6], rounded: &mut bool) -> u32
    ensures value { result ≡ number_of_inversion (invert_of (matrix_of m.now)) }
    ensures out { out.new ≡ filled_or out.old (values_of_inversion (invert_of (matrix_of m.now))) }
    ensures rounded { rounded.new ≡ first_or rounded.old (flags_of_inversion (invert_of (matrix_of m.now))) }
{
    give_inverse(matrix(m).invert(), out, rounded)
}

// Maps one point, x and y, where it stands.
#[tactic(auto, unfolding(point::specs::Numbers::flat))]
pub fn nz_transform_map_point(m: &[f32; 6], point: &mut [f32; 2])
    ensures { point.new ≡ flat (map_point (matrix_of m.now) (point_at point.old 0) ∷ []) }
{
    let p = matrix(m).map_point(Point {
        x: point[0],
        y: point[1],
    });
    *point = [p.x, p.y];
}

// Maps each point of a buffer that holds x, y, x, y.
pub fn nz_transform_map_numbers(m: &[f32; 6], numbers: &mut [f32]) -> u32
    ensures value { result ≡ mapping_number numbers.old }
    ensures buffer { numbers.new ≡ mapped_numbers (matrix_of m.now) numbers.old }
{
    answers::number(mapping::map_numbers(matrix(m), numbers))
}
