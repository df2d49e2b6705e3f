// The formulas of a chop, one axis at a time. Carried over from `path_geometry.rs` of tiny-skia-path 0.12.0.
#![tactic(auto, unfolding(crate::specs::Chop::line_of, crate::specs::Chop::halves_at, crate::specs::Chop::lines_at, crate::specs::Rule::test_along))]

ghost use Rattle.std.specs.Prelude.{◌≡◌};
ghost use Rattle.conic.specs.Chop.{line_of, wide_middle, plain_lines, whole_middle, lines_at, mended_by, mended_lines, settled_lines, halves_at};

use crate::ruling::Test;
use crate::{Conic, Halves, Rule, mending};
use point::Point;

// What a chop puts between a start and an end, along one axis: the first half's control, the middle, the second half's control.
#[derive(Clone, Copy)]
pub struct Line {
    pub left: f32,
    pub middle: f32,
    pub right: f32,
}

// Both axes. A conic stands beside its lines wherever a chop is made of them: the lines are moved, and the conic stays.
#[derive(Clone, Copy)]
pub struct Lines {
    pub x: Line,
    pub y: Line,
}

// The line from a to c, bent towards b.
fn plain(a: f32, b: f32, c: f32, weight: f32, scale: f32) -> Line
    ensures { result ≡ line_of a b c weight scale }
{
    let wb = weight * b;
    let left = (a + wb) * scale;
    let middle = (a + (wb + wb) + c) * scale * 0.5;
    let right = (wb + c) * scale;
    Line {
        left,
        middle,
        right,
    }
}

// The middle of a line computed through `f64`, and narrowed once. It is rare, and as a part of a chop it would make that too long to
// be a part of the recursion: cuts that are corrected would take half as long again (docs/SPEED.md).
#[inline(never)]
#[tactic(auto, using(float_ground::proofs::Losses::carried), unfolding(crate::specs::Chop::wide_middle))]
fn wide_middle(a: f32, b: f32, c: f32, weight: f32) -> f32
    ensures { result ≡ wide_middle a b c weight }
{
    let w = float_ground::widen(weight);
    let scale_half = 1.0 / (1.0 + w) * 0.5;
    let sum = float_ground::widen(a) + w * 2.0 * float_ground::widen(b) + float_ground::widen(c);
    float_ground::narrow(sum * scale_half).value()
}

// Both axes of a chop, as the formulas give them.
pub fn plain_lines(c: Conic, scale: f32) -> Lines
    ensures { result ≡ plain_lines scale c }
{
    let x = plain(c.p0.x, c.p1.x, c.p2.x, c.weight, scale);
    let y = plain(c.p0.y, c.p1.y, c.p2.y, c.weight, scale);
    Lines { x, y }
}

// Whether the middle point of these lines passes the crate's finite test.
pub fn is_whole(l: Lines) -> bool
    ensures { result ≡ whole_middle l }
{
    let middle = Point {
        x: l.x.middle,
        y: l.y.middle,
    };
    middle.is_finite()
}

// Both axes of a chop. Both middles are computed again where the point that they make is not finite.
pub fn chopped(c: Conic, scale: f32) -> Lines
    ensures { result ≡ lines_at scale c }
{
    let l = plain_lines(c, scale);
    if is_whole(l) {
        return l;
    }
    let x = Line {
        middle: wide_middle(c.p0.x, c.p1.x, c.p2.x, c.weight),
        ..l.x
    };
    let y = Line {
        middle: wide_middle(c.p0.y, c.p1.y, c.p2.y, c.weight),
        ..l.y
    };
    Lines { x, y }
}

// Whether each line that c's rule puts in order runs one way over a finite distance, so that `mended` leaves both.
pub fn is_settled(c: Conic, l: Lines) -> bool
    ensures { result ≡ settled_lines c l }
{
    if !mending::is_settled(c.p0.y, c.p2.y, l.y) {
        return false;
    }
    match c.rule {
        Rule::Product | Rule::Exact => true,
        Rule::BothAxes => mending::is_settled(c.p0.x, c.p2.x, l.x),
    }
}

// The lines of c, each put in order by its test.
fn mended_by(x: Test, y: Test, c: Conic, l: Lines) -> Lines
    ensures { result ≡ mended_by x y c l }
{
    let mended_x = mending::mended(x, c.p0.x, c.p1.x, c.p2.x, l.x);
    let mended_y = mending::mended(y, c.p0.y, c.p1.y, c.p2.y, l.y);
    Lines {
        x: mended_x,
        y: mended_y,
    }
}

// The lines of c, each put in order where its rule asks for it along that axis. The rule is looked at once, so that each call
// below is compiled for the tests that it names.
pub fn mended(c: Conic, l: Lines) -> Lines
    ensures { result ≡ mended_lines c l }
{
    match c.rule {
        Rule::Product => mended_by(Test::Never, Test::Product, c, l),
        Rule::Exact => mended_by(Test::Never, Test::Exact, c, l),
        Rule::BothAxes => mended_by(Test::Exact, Test::Exact, c, l),
    }
}

// The halves of c that these lines make, number by number: a point that is copied whole waits for the stores of its numbers.
pub fn halves(c: Conic, l: Lines, weight: f32) -> Halves
    ensures { result ≡ halves_at weight c l }
{
    let rule = c.rule;
    let first = Conic {
        p0: Point::from_xy(c.p0.x, c.p0.y),
        p1: Point {
            x: l.x.left,
            y: l.y.left,
        },
        p2: Point {
            x: l.x.middle,
            y: l.y.middle,
        },
        weight,
        rule,
    };
    let second = Conic {
        p0: Point {
            x: l.x.middle,
            y: l.y.middle,
        },
        p1: Point {
            x: l.x.right,
            y: l.y.right,
        },
        p2: Point::from_xy(c.p2.x, c.p2.y),
        weight,
        rule,
    };
    Halves { first, second }
}
