// The roots of a quadratic that lie strictly between 0 and 1.
// Carried over from `path_geometry.rs` of tiny-skia-path 0.12.0.
#![tactic(auto)]

ghost use Rattle.std.specs.Prelude.{◌≡◌, length};
ghost use Rattle.quad_roots.specs.Roots as R;

use float_ground::{is_finite_f32, narrow, sqrt_f64, widen};

// A quotient's number in docs/RULES.md, "Answer numbers".
pub fn quotient_number(quotient: Option<f32>) -> u32
    ensures { result ≡ R.number_of_divided quotient }
{
    0 // no quotient is an answer, not a refusal
}

// How many quotients there are.
pub fn quotient_count(quotient: Option<f32>) -> u32
    ensures { result ≡ length (R.values_of_divided quotient) }
{
    match quotient {
        None => 0,
        Some(_) => 1,
    }
}

// The roots strictly between 0 and 1; two are strictly increasing.
#[derive(Clone, Copy)]
pub enum Roots {
    None,
    One(f32),
    Two(f32, f32),
}

impl Roots {
    // Its number in docs/RULES.md, "Answer numbers".
    pub fn number(self) -> u32
        ensures { result ≡ R.number_of_roots self }
    {
        0 // no root is an answer, not a refusal
    }

    // How many roots there are.
    pub fn count(self) -> u32
        ensures { result ≡ length (R.values_of_roots self) }
    {
        match self {
            Roots::None => 0,
            Roots::One(_) => 1,
            Roots::Two(_, _) => 2,
        }
    }
}

// numer / denom where numer is not below 0, if it lies strictly between 0 and 1.
fn unit_divide(numer: f32, denom: f32) -> Option<f32>
    ensures { result ≡ R.quotient_of numer denom }
{
    if (denom == 0.0) | (numer == 0.0) | (numer >= denom) {
        return None;
    }
    let r = numer / denom;
    if (r > 0.0) & (r < 1.0) { Some(r) } else { None }
}

// numer / denom, if it lies strictly between 0 and 1.
#[tactic(auto, using(crate::proofs::Rising::divided_rising), unfolding(crate::specs::Roots::divided_of))]
pub fn valid_unit_divide(numer: f32, denom: f32) -> Option<f32>
    ensures value { result ≡ R.divided_of numer denom }
    ensures number { R.number_of_divided result ≡ 0 }
    ensures inside { R.Rising (R.values_of_divided result) }
{
    if numer < 0.0 {
        return unit_divide(-numer, -denom);
    }
    unit_divide(numer, denom)
}

// Two roots in hand: the smaller first, and equal ones once.
#[tactic(auto, unfolding(crate::specs::Roots::two_roots))]
fn two_roots(r: f32, s: f32) -> Roots
    ensures { result ≡ R.two_roots r s }
{
    if r > s {
        return Roots::Two(s, r);
    }
    if r == s {
        Roots::One(r)
    } else {
        Roots::Two(r, s)
    }
}

// The roots among two quotients, in order.
#[tactic(auto, unfolding(crate::specs::Roots::collected))]
fn collected(first: Option<f32>, second: Option<f32>) -> Roots
    ensures { result ≡ R.collected first second }
{
    match (first, second) {
        (None, None) => Roots::None,
        (Some(r), None) | (None, Some(r)) => Roots::One(r),
        (Some(r), Some(s)) => two_roots(r, s),
    }
}

// The discriminant, in f64 so that it does not overflow.
#[tactic(auto, unfolding(crate::specs::Roots::discriminant_of))]
fn discriminant(a: f32, b: f32, c: f32) -> f64
    ensures { result ≡ R.discriminant_of a b c }
{
    widen(b) * widen(b) - 4.0 * widen(a) * widen(c)
}

// The discriminant's root, narrowed once it is taken. An infinity is told by the caller's test: an infinite root counts
// as exact.
#[tactic(auto, using(float_ground::proofs::Losses::carried))]
fn root(dr: f64) -> f32
    ensures { result ≡ R.root_of_discriminant dr }
{
    narrow(sqrt_f64(dr)).value()
}

// q/a and c/q are the roots, where r is the discriminant's root.
#[tactic(auto, unfolding(crate::specs::Roots::q_of))]
fn q(b: f32, r: f32) -> f32
    ensures { result ≡ R.q_of b r }
{
    if b < 0.0 {
        -(b - r) / 2.0
    } else {
        -(b + r) / 2.0
    }
}

// The roots of a·t² + b·t + c that lie strictly between 0 and 1.
#[tactic(auto, unfolding(crate::specs::Roots::roots_of))]
pub fn find_unit_quad_roots(a: f32, b: f32, c: f32) -> Roots
    ensures value { result ≡ R.roots_of a b c }
    ensures number { R.number_of_roots result ≡ 0 }
    ensures inside { R.Rising (R.values_of_roots result) }
{
    if a == 0.0 {
        return collected(valid_unit_divide(-c, b), None);
    }
    let dr = discriminant(a, b, c);
    if dr < 0.0 {
        return Roots::None;
    }
    let r = root(dr);
    if !is_finite_f32(r) {
        return Roots::None;
    }
    let q = q(b, r);
    collected(valid_unit_divide(q, a), valid_unit_divide(c, q))
}
