// Two transforms as one. Carried over from `transform.rs` of tiny-skia-path 0.12.0.
ghost use Rattle.std.specs.Prelude.{◌≡◌, false};
ghost use Rattle.transform.specs.Row.{scale_of, translate_of};
ghost use Rattle.transform.specs.Told.{computed_of, entry_of};
ghost use Rattle.transform.specs.Product.{mul_add, unskewed_product, skewed_told, product_told, concat_told};

use super::entry::Entry;
use super::{Computed, Transform, entry};
use float_ground::widen;

impl Transform {
    // What scales by (sx, sy) first and then does this.
    pub fn pre_scale(self, sx: f32, sy: f32) -> Computed
        ensures { result ≡ concat_told self (scale_of sx sy) }
    {
        self.pre_concat(Transform::from_scale(sx, sy))
    }

    // What does this first and then scales by (sx, sy).
    pub fn post_scale(self, sx: f32, sy: f32) -> Computed
        ensures { result ≡ concat_told (scale_of sx sy) self }
    {
        self.post_concat(Transform::from_scale(sx, sy))
    }

    // What moves by (tx, ty) first and then does this.
    pub fn pre_translate(self, tx: f32, ty: f32) -> Computed
        ensures { result ≡ concat_told self (translate_of tx ty) }
    {
        self.pre_concat(Transform::from_translate(tx, ty))
    }

    // What does this first and then moves by (tx, ty).
    pub fn post_translate(self, tx: f32, ty: f32) -> Computed
        ensures { result ≡ concat_told (translate_of tx ty) self }
    {
        self.post_concat(Transform::from_translate(tx, ty))
    }

    // What does `other` first and then this.
    pub fn pre_concat(self, other: Transform) -> Computed
        ensures { result ≡ concat_told self other }
    {
        concat(self, other)
    }

    // What does this first and then `other`.
    pub fn post_concat(self, other: Transform) -> Computed
        ensures { result ≡ concat_told other self }
    {
        concat(other, self)
    }
}

// What does b first and then a. An identity on either side leaves the other as it is.
#[tactic(auto, unfolding(crate::specs::Product::concat_of, crate::specs::Product::concat_narrows, float_laws::specs::Narrow::some_lost))]
fn concat(a: Transform, b: Transform) -> Computed
    ensures { result ≡ concat_told a b }
{
    if a.is_identity() {
        return entry::exactly(b);
    }
    if b.is_identity() {
        return entry::exactly(a);
    }
    product(a, b)
}

// The product of two transforms, neither of them the identity.
#[tactic(auto, unfolding(crate::specs::Product::product_of, crate::specs::Product::product_narrows, float_laws::specs::Narrow::some_lost))]
fn product(a: Transform, b: Transform) -> Computed
    ensures { result ≡ product_told a b }
{
    if !a.has_skew() & !b.has_skew() {
        unskewed(a, b)
    } else {
        skewed(a, b)
    }
}

// The product where neither skews, all in f32: nothing is narrowed.
#[tactic(auto, unfolding(crate::specs::Product::unskewed_product))]
fn unskewed(a: Transform, b: Transform) -> Computed
    ensures { result ≡ computed_of (unskewed_product a b) false }
{
    Computed {
        transform: Transform::from_row(
            a.sx * b.sx,
            0.0,
            0.0,
            a.sy * b.sy,
            a.sx * b.tx + a.tx,
            a.sy * b.ty + a.ty,
        ),
        rounded: false,
    }
}

// The product where one skews: the products of entries go through f64, and the move is added in f32.
#[tactic(auto, unfolding(crate::specs::Product::skewed_product, float_laws::specs::Narrow::some_lost, crate::specs::Told::some_rounded))]
fn skewed(a: Transform, b: Transform) -> Computed
    ensures { result ≡ skewed_told a b }
{
    entry::together(
        mul_add_mul(a.sx, b.sx, a.kx, b.ky),
        mul_add_mul(a.ky, b.sx, a.sy, b.ky),
        mul_add_mul(a.sx, b.kx, a.kx, b.sy),
        mul_add_mul(a.ky, b.kx, a.sy, b.sy),
        mul_add_mul(a.sx, b.tx, a.kx, b.ty).moved(a.tx),
        mul_add_mul(a.ky, b.tx, a.sy, b.ty).moved(a.ty),
    )
}

// a * b + c * d in f64, narrowed once.
fn mul_add_mul(a: f32, b: f32, c: f32, d: f32) -> Entry
    ensures { result ≡ entry_of (mul_add a b c d) }
{
    Entry::of(widen(a) * widen(b) + widen(c) * widen(d))
}
