// The inverse of a transform. Carried over from `transform.rs` of tiny-skia-path 0.12.0.
ghost use Rattle.std.specs.Prelude.{◌≡◌, false};
ghost use Rattle.transform.specs.Inverse.{number_of_refusal, refusal_numbers, invert_of, unskewed_inverse, inv_determinant};
ghost use Rattle.transform.specs.Inverse.{scaled_told, skewed_inversion, checked_of, dcross_of};
ghost use Rattle.transform.specs.Told.{entry_of};
ghost use Rattle.float_laws.specs.Formula.{◌⊠◌};

use super::entry::Entry;
use super::scalar::is_nearly_zero_within_tolerance;
use super::{Computed, Transform, entry};
use answers::Numbered;
use float_ground::widen;

// Why there is no inverse.
#[derive(Clone, Copy, Debug, PartialEq, Eq)]
pub enum Refusal {
    // The determinant of a skewed transform is nearly zero.
    NearlySingular,
    // The computed inverse has an entry that is not finite.
    NotFinite,
}

impl Numbered for Refusal {
    ghost number_of = { number_of_refusal };

    ghost above_zero = { refusal_numbers };

    fn number(self) -> u32 {
        match self {
            Refusal::NearlySingular => 6,
            Refusal::NotFinite => 7,
        }
    }
}

// One over the determinant, and whether narrowing the determinant was not exact: both are always there. An f64, beside `Entry` of an
// f32, which alone is moved: as one generic type it would have a method for one of its two uses.
#[derive(Clone, Copy)]
struct InvDeterminant {
    value: f64,
    rounded: bool,
}

// A determinant of at most 2^-36 counts as zero: the cube of the crate's SCALAR_NEARLY_ZERO, 2^-12.
const NEARLY_ZERO: f32 = 1.4551915228366852e-11;

impl Transform {
    // The transform that undoes this one, if all of it is finite. An identity is its own.
    #[tactic(auto, using(crate::proofs::Undone::by_identity, crate::proofs::Undone::by_scale, crate::proofs::Undone::by_determinant))]
    pub fn invert(self) -> Result<Computed, Refusal>
        ensures { result ≡ invert_of self }
    {
        if self.is_identity() {
            return Ok(entry::exactly(self));
        }
        if self.is_scale_translate() {
            return unskewed(self);
        }
        skewed(self)
    }
}

// The inverse of a transform that scales or moves, and does not skew, if all of it is finite: that of a scale of 0 is not.
#[tactic(auto, unfolding(crate::specs::Inverse::unskewed_inverse))]
fn unskewed(ts: Transform) -> Result<Computed, Refusal>
    ensures { result ≡ checked_of (unskewed_inverse ts) false }
{
    if ts.has_scale() {
        let inv_x = 1.0 / ts.sx;
        let inv_y = 1.0 / ts.sy;
        let inverse = Transform::from_row(inv_x, 0.0, 0.0, inv_y, -ts.tx * inv_x, -ts.ty * inv_y);
        checked(entry::exactly(inverse))
    } else {
        checked(entry::exactly(Transform::from_translate(-ts.tx, -ts.ty)))
    }
}

// The inverse of a skewed transform, or why there is none.
#[tactic(auto, unfolding(crate::specs::Inverse::inv_determinant))]
fn skewed(ts: Transform) -> Result<Computed, Refusal>
    ensures { result ≡ skewed_inversion ts (inv_determinant ts) }
{
    let Ok(inv_det) = inv_determinant(ts) else {
        return Err(Refusal::NearlySingular);
    };
    let inverse = compute_inv(ts, inv_det.value);
    checked(Computed {
        rounded: inv_det.rounded | inverse.rounded,
        ..inverse
    })
}

// The inverse, if all of it is finite.
#[tactic(auto, unfolding(crate::specs::Inverse::checked_of))]
fn checked(inverse: Computed) -> Result<Computed, Refusal>
    ensures { result ≡ checked_of inverse.transform inverse.rounded }
{
    if inverse.transform.is_finite() {
        Ok(inverse)
    } else {
        Err(Refusal::NotFinite)
    }
}

// One over the determinant, unless that is nearly zero: the test is on it narrowed to f32, and its inverse is taken in f64.
#[tactic(auto, unfolding(crate::specs::Inverse::inv_determinant))]
fn inv_determinant(ts: Transform) -> Result<InvDeterminant, Refusal>
    ensures { result ≡ inv_determinant ts }
{
    let det = dcross(ts.sx, ts.sy, ts.kx, ts.ky);
    let tested = Entry::of(det);
    if is_nearly_zero_within_tolerance(tested.value, NEARLY_ZERO) {
        return Err(Refusal::NearlySingular);
    }
    Ok(InvDeterminant {
        value: 1.0 / det,
        rounded: tested.rounded,
    })
}

// The inverse of a skewed transform, each entry computed in f64 and narrowed once.
#[tactic(auto, unfolding(crate::specs::Inverse::skewed_inverse, float_laws::specs::Narrow::some_lost, crate::specs::Told::some_rounded))]
fn compute_inv(ts: Transform, inv_det: f64) -> Computed
    ensures { result ≡ scaled_told ts inv_det }
{
    entry::together(
        dscale(ts.sy, inv_det),
        dscale(-ts.ky, inv_det),
        dscale(-ts.kx, inv_det),
        dscale(ts.sx, inv_det),
        dcross_dscale(ts.kx, ts.ty, ts.sy, ts.tx, inv_det),
        dcross_dscale(ts.ky, ts.tx, ts.sx, ts.ty, inv_det),
    )
}

// x * scale in f64, narrowed once.
fn dscale(x: f32, scale: f64) -> Entry
    ensures { result ≡ entry_of (x ⊠ scale) }
{
    Entry::of(widen(x) * scale)
}

// (a * b - c * d) * scale in f64, narrowed once.
fn dcross_dscale(a: f32, b: f32, c: f32, d: f32, scale: f64) -> Entry
    ensures { result ≡ entry_of (dcross_of a b c d ⊠ scale) }
{
    Entry::of(dcross(a, b, c, d) * scale)
}

// a * b - c * d in f64.
fn dcross(a: f32, b: f32, c: f32, d: f32) -> f64
    ensures { result ≡ dcross_of a b c d }
{
    widen(a) * widen(b) - widen(c) * widen(d)
}
