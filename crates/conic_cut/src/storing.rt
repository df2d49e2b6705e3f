// Stores of points, two numbers a point. Carried over from `path_geometry.rs` of tiny-skia-path 0.12.0.
// A buffer and a place go side by side, and no writer holds both: each answers the next place, of which the contracts of the
// recursion speak (`sets out.old at ..`), where a writer would be lent on through every call of it.
#![tactic(auto, using(crate::proofs::Lists::sets_then), unfolding(point::specs::Numbers::flat))]

ghost use Rattle.std.specs.Prelude.{◌≡◌, [], ◌∷◌, ◌+◌, ◌*◌, ◌≤◌, length, replicate};
ghost use Rattle.std.proofs.lemmas.List.Edits.{sets};
ghost use Rattle.point.specs.Numbers.{flat};
ghost use Rattle.conic_cut.specs.Cut.{half_points};

use conic::{Conic, Halves};
use point::Point;

// Stores p at `at`, and answers the next place.
pub fn put(out: &mut [f32], at: usize, p: Point) -> usize
    requires { at + 2 ≤ length out.old }
    ensures { (result ≡ at + 2) × (out.new ≡ sets out.old at (flat (p ∷ []))) }
{
    out[at] = p.x;
    let next = at + 1;
    out[next] = p.y;
    next + 1
}

// Stores the points of c, as a quad, but the first, and answers the next place.
pub fn put_quad(out: &mut [f32], at: usize, c: Conic) -> usize
    requires { at + 4 ≤ length out.old }
    ensures { (result ≡ at + 4) × (out.new ≡ sets out.old at (flat (c.p1 ∷ c.p2 ∷ []))) }
{
    let next = put(out, at, Point::from_xy(c.p1.x, c.p1.y));
    put(out, next, Point::from_xy(c.p2.x, c.p2.y))
}

// Stores both halves, each as a quad.
pub fn put_halves(out: &mut [f32], at: usize, h: Halves) -> usize
    requires { at + 8 ≤ length out.old }
    ensures { (result ≡ at + 8) × (out.new ≡ sets out.old at (flat (half_points h))) }
{
    let next = put_quad(out, at, h.first);
    put_quad(out, next, h.second)
}

// Stores p, n times, from `at` on.
#[tactic(auto, using(crate::proofs::Stores::pin_more, crate::proofs::Stores::pin_done))]
pub fn pin(out: &mut [f32], at: usize, p: Point, n: usize)
    requires { at + 2 * n ≤ length out.old }
    ensures { out.new ≡ sets out.old at (flat (replicate n p)) }
{
    let mut next = at;
    for _ in 0..n {
        next = put(out, next, p);
    }
}
