// The transforms' calls. A matrix is six numbers, in the order of `from_row`.
use super::record::Record;
use super::sum;
use super::sum::Sum;
use nyerdzumak::{kinds, transforms};

// What the calls give that tell a matrix's kind.
pub fn all_kinds(m: &[f32; 6]) -> Sum {
    let mut scale = sum::standing();
    kinds::nz_transform_get_scale(m, &mut scale);
    Sum::START
        .flag(kinds::nz_transform_is_finite(m))
        .flag(kinds::nz_transform_is_valid(m))
        .flag(kinds::nz_transform_is_identity(m))
        .flag(kinds::nz_transform_is_scale(m))
        .flag(kinds::nz_transform_is_skew(m))
        .flag(kinds::nz_transform_is_translate(m))
        .flag(kinds::nz_transform_is_scale_translate(m))
        .flag(kinds::nz_transform_has_scale(m))
        .flag(kinds::nz_transform_has_skew(m))
        .flag(kinds::nz_transform_has_translate(m))
        .floats(&scale)
}

// The sums with the matrix more that a call makes.
fn made<F: FnOnce(&mut [f32; 6])>(s: Sum, call: F) -> Sum
    requires { F.IsAlwaysCallable call }
{
    let mut out = sum::standing();
    call(&mut out);
    s.floats(&out)
}

// What the calls give that make a matrix.
pub fn all_made(x: f32, y: f32) -> Sum {
    let a = made(Sum::START, |out| transforms::nz_transform_identity(out));
    let b = made(a, |out| {
        transforms::nz_transform_from_translate(x, y, out)
    });
    let c = made(b, |out| transforms::nz_transform_from_scale(x, y, out));
    made(c, |out| transforms::nz_transform_from_skew(x, y, out))
}

// The sums with a product more: the six numbers, and then the flag, which stood at true.
fn product<F: FnOnce(&mut [f32; 6], &mut bool)>(s: Sum, call: F) -> Sum
    requires { F.IsAlwaysCallable call }
{
    let mut out = sum::standing();
    let mut rounded = true;
    call(&mut out, &mut rounded);
    s.floats(&out).flag(rounded)
}

// What the products of two matrices give.
pub fn products(a: &[f32; 6], b: &[f32; 6]) -> Sum {
    let s = product(Sum::START, |out, rounded| {
        transforms::nz_transform_pre_concat(a, b, out, rounded)
    });
    product(s, |out, rounded| {
        transforms::nz_transform_post_concat(a, b, out, rounded)
    })
}

// What the products with a scale and with a move give.
pub fn scaled_and_moved(m: &[f32; 6], x: f32, y: f32) -> Sum {
    let a = product(Sum::START, |out, rounded| {
        transforms::nz_transform_pre_scale(m, x, y, out, rounded)
    });
    let b = product(a, |out, rounded| {
        transforms::nz_transform_post_scale(m, x, y, out, rounded)
    });
    let c = product(b, |out, rounded| {
        transforms::nz_transform_pre_translate(m, x, y, out, rounded)
    });
    product(c, |out, rounded| {
        transforms::nz_transform_post_translate(m, x, y, out, rounded)
    })
}

// What the inverse gives.
pub fn inverse(m: &[f32; 6]) -> Sum {
    let mut out = sum::standing();
    let mut rounded = true;
    let number = transforms::nz_transform_invert(m, &mut out, &mut rounded);
    Sum::START.floats(&out).flag(rounded).word(number)
}

// What the mapping of a point gives.
pub fn map_point(m: &[f32; 6], x: f32, y: f32) -> Sum {
    let mut point = [x, y];
    transforms::nz_transform_map_point(m, &mut point);
    Sum::START.floats(&point)
}

// Eight places, the first n of which, but at most six, hold the last numbers of a record.
pub fn eight(r: &Record, n: usize) -> [f32; 8] {
    let mut places = sum::standing();
    let last: [f32; 6] = r.floats(7);
    let n = n.min(6);
    places[..n].copy_from_slice(&last[..n]);
    places
}
