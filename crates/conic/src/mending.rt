// The corrections after a chop, along one axis. Carried over from `subdivide` in `path_geometry.rs` of tiny-skia-path 0.12.0.
// The ends a and c of an axis and its control b are numbers side by side, as the formulas name them: in a struct they would have to
// be put together first, for each of the two axes of a conic.
#![tactic(auto, unfolding(crate::specs::Mend::nearer_of, crate::specs::Mend::ordered_of, crate::specs::Mend::rises_of, crate::specs::Mend::runs_of, crate::specs::Mend::settled_of))]

ghost use Rattle.std.specs.Prelude.{◌≡◌, cond};
ghost use Rattle.conic.specs.Between.{passes};
ghost use Rattle.conic.specs.Mend.{nearer_of, ordered_of, rises_of, runs_of, settled_of, mended_of};

use crate::chopping::Line;
use crate::ruling;
use crate::ruling::Test;

// The end that m is nearer to; c on a tie, and where a difference is NaN.
fn nearer(a: f32, m: f32, c: f32) -> f32
    ensures { result ≡ nearer_of a m c }
{
    if float_ground::abs_f32(m - a) < float_ground::abs_f32(m - c) {
        a
    } else {
        c
    }
}

// b where it lies between a and c, and else the other.
fn kept(test: Test, a: f32, b: f32, c: f32, other: f32) -> f32
    ensures { result ≡ cond (passes test a b c) b other }
{
    if ruling::passes(test, a, b, c) {
        b
    } else {
        other
    }
}

// The middle moved to the nearer end, and then each control to its own, where the test fails.
fn in_order(test: Test, a: f32, c: f32, l: Line) -> Line
    ensures { result ≡ ordered_of test a c l }
{
    let middle = kept(test, a, l.middle, c, nearer(a, l.middle, c));
    let left = kept(test, a, l.left, middle, a);
    let right = kept(test, middle, l.right, c, c);
    Line {
        left,
        middle,
        right,
    }
}

// Whether the five numbers only rise; ties are allowed.
fn rises(a: f32, left: f32, middle: f32, right: f32, c: f32) -> bool
    ensures { result ≡ rises_of a left middle right c }
{
    (a <= left) & (left <= middle) & (middle <= right) & (right <= c)
}

// Whether the line only rises or only falls, all the way from a to c.
fn runs(a: f32, c: f32, l: Line) -> bool
    ensures { result ≡ runs_of a c l }
{
    if rises(a, l.left, l.middle, l.right, c) {
        return true;
    }
    rises(c, l.right, l.middle, l.left, a)
}

// Whether the line runs one way over a finite distance: it then passes every test, and `mended` leaves it. This is asked of
// every chop, and it takes fewer steps than the tests.
pub fn is_settled(a: f32, c: f32, l: Line) -> bool
    ensures { result ≡ settled_of a c l }
{
    if runs(a, c, l) {
        return float_ground::is_finite_f32(c - a);
    }
    false
}

// The line of a chop from a to c: put in order where b lies between them.
#[tactic(auto, using(crate::proofs::OneWay::settled_left), unfolding(crate::specs::Mend::mended_of))]
pub fn mended(test: Test, a: f32, b: f32, c: f32, l: Line) -> Line
    ensures { result ≡ mended_of test a b c l }
{
    if is_settled(a, c, l) {
        return l;
    }
    if ruling::passes(test, a, b, c) {
        return in_order(test, a, c, l);
    }
    l
}
