// Cubics, four points by value or eight lent numbers: points and tangents, chops, extrema and inflections.
// Carried over from `path_geometry.rs` of tiny-skia-path 0.12.0.
#![tactic(auto)]

ghost use Rattle.std.specs.Prelude.{◌≡◌, Ok, Err};
ghost use Rattle.quad_roots.specs.Roots.{number_of_roots, values_of_roots, Rising};
ghost use Rattle.quads.specs.declared.Refusal.TheVariants as Q;
ghost use Rattle.quads.specs.Answers.{number_of_point, values_of_point, short_pick, eval_number, eval_answer, eval_values};
ghost use Rattle.quads.specs.Answers.{number_of_chop, chop_number, chop_answer, chop_buffer};
ghost use Rattle.cubics.specs.Cubics as C;

use answers::Numbered;
use point::Point;
use quad_roots::Roots;
use quads::{lent, steps};

#[derive(Clone, Copy)]
pub struct Cubic {
    pub p0: Point,
    pub p1: Point,
    pub p2: Point,
    pub p3: Point,
}

// Why the inflections are not given.
#[derive(Clone, Copy, Debug, PartialEq, Eq)]
pub enum Refusal {
    BufferTooShort,
}

impl Numbered for Refusal {
    ghost number_of = { C.number_of_refusal };

    ghost above_zero = { C.refusal_numbers };

    fn number(self) -> u32 {
        match self {
            Refusal::BufferTooShort => 2,
        }
    }
}

// The coefficient of t³, along one axis. The numbers of an axis go side by side here and below, named as in the Rust.
fn leading(p0: f32, p1: f32, p2: f32, p3: f32) -> f32
    ensures { result ≡ C.leading p0 p1 p2 p3 }
{
    p3 + 3.0 * (p1 - p2) - p0
}

// A cubic at t, along one axis.
fn eval(p0: f32, p1: f32, p2: f32, p3: f32, t: f32) -> f32
    ensures { result ≡ C.eval_axis t p0 p1 p2 p3 }
{
    let a = leading(p0, p1, p2, p3);
    let b = 3.0 * (p2 - (p1 + p1) + p0);
    let c = 3.0 * (p1 - p0);
    ((a * t + b) * t + c) * t + p0
}

// A third of a cubic's derivative at t, along one axis.
fn slope(p0: f32, p1: f32, p2: f32, p3: f32, t: f32) -> f32
    ensures { result ≡ C.slope_axis t p0 p1 p2 p3 }
{
    let a = leading(p0, p1, p2, p3);
    let half = p2 - (p1 + p1) + p0;
    (a * t + (half + half)) * t + (p1 - p0)
}

// The cross product of two vectors.
fn cross(p: Point, q: Point) -> f32
    ensures { result ≡ C.cross p q }
{
    p.x * q.y - p.y * q.x
}

// A formula is of one axis, as docs/RULES.md has it, and is asked for x and for y.
impl Cubic {
    // The point at t.
    #[tactic(auto, unfolding(crate::specs::Cubics::cubic_at))]
    fn at(self, t: f32) -> Point
        ensures { result ≡ C.cubic_at self t }
    {
        Point {
            x: eval(self.p0.x, self.p1.x, self.p2.x, self.p3.x, t),
            y: eval(self.p0.y, self.p1.y, self.p2.y, self.p3.y, t),
        }
    }

    // From the start to the control point after its own, or from the one before its own to the end.
    #[tactic(auto, unfolding(crate::specs::Cubics::next_control))]
    fn next_control(self, t: f32) -> Point
        ensures { result ≡ C.next_control self t }
    {
        if t == 0.0 {
            self.p2 - self.p0
        } else {
            self.p3 - self.p1
        }
    }

    // The tangent at an end whose control point coincides with it: by the next control point, else the chord.
    #[tactic(auto, unfolding(crate::specs::Cubics::end_tangent))]
    fn end_tangent(self, t: f32) -> Point
        ensures { result ≡ C.end_tangent self t }
    {
        let tangent = self.next_control(t);
        if tangent == Point::zero() {
            return self.p3 - self.p0;
        }
        tangent
    }

    // A third of the derivative at t; at an end whose control point coincides with it, its own tangent.
    #[tactic(auto, unfolding(crate::specs::Cubics::cubic_tangent))]
    fn tangent_at(self, t: f32) -> Point
        ensures { result ≡ C.cubic_tangent self t }
    {
        let first = (t == 0.0) & (self.p0 == self.p1);
        let last = (t == 1.0) & (self.p2 == self.p3);
        if first | last {
            return self.end_tangent(t);
        }
        Point {
            x: slope(self.p0.x, self.p1.x, self.p2.x, self.p3.x, t),
            y: slope(self.p0.y, self.p1.y, self.p2.y, self.p3.y, t),
        }
    }

    // The seven points of the two cubics that meet at t.
    #[tactic(auto, unfolding(crate::specs::Cubics::cubic_chop, point::specs::Numbers::flat))]
    fn chop_at2(self, t: f32) -> [f32; 14]
        ensures { result ≡ C.cubic_chop self t }
    {
        let ab = steps::interp(self.p0, self.p1, t);
        let bc = steps::interp(self.p1, self.p2, t);
        let cd = steps::interp(self.p2, self.p3, t);
        let abc = steps::interp(ab, bc, t);
        let bcd = steps::interp(bc, cd, t);
        let abcd = steps::interp(abc, bcd, t);
        [
            self.p0.x, self.p0.y, ab.x, ab.y, abc.x, abc.y, abcd.x, abcd.y, bcd.x, bcd.y, cd.x,
            cd.y, self.p3.x, self.p3.y,
        ]
    }

    // Where the curvature is zero.
    #[tactic(auto, unfolding(crate::specs::Cubics::cubic_inflections))]
    fn inflections(self) -> Roots
        ensures value { result ≡ C.cubic_inflections self }
        ensures inside { Rising (values_of_roots result) }
    {
        let a = self.p1 - self.p0;
        let b = Point {
            x: self.p2.x - 2.0 * self.p1.x + self.p0.x,
            y: self.p2.y - 2.0 * self.p1.y + self.p0.y,
        };
        let c = Point {
            x: leading(self.p0.x, self.p1.x, self.p2.x, self.p3.x),
            y: leading(self.p0.y, self.p1.y, self.p2.y, self.p3.y),
        };
        quad_roots::find_unit_quad_roots(cross(b, c), cross(a, c), cross(a, b))
    }
}

// The cubic of eight lent numbers, if there are so many: by places, each of which a wrong version exchanges.
fn cubic_of(src: &[f32]) -> Result<Cubic, quads::Refusal>
    ensures { result ≡ short_pick 8 src.now (Err Q.BufferTooShort) (Ok (C.cubic_of src.now)) }
{
    if src.len() < 8 {
        return Err(quads::Refusal::BufferTooShort);
    }
    Ok(Cubic {
        p0: Point::from_xy(src[0], src[1]),
        p1: Point::from_xy(src[2], src[3]),
        p2: Point::from_xy(src[4], src[5]),
        p3: Point::from_xy(src[6], src[7]),
    })
}

// The point at t.
pub fn eval_cubic_pos_at(src: &[f32], t: f32) -> Result<Point, quads::Refusal>
    ensures value { result ≡ eval_answer 8 t src.now (C.cubic_at (C.cubic_of src.now) t) }
    ensures number { number_of_point result ≡ eval_number 8 t src.now }
    ensures values { values_of_point result ≡ eval_values 8 t src.now (C.cubic_at (C.cubic_of src.now) t) }
{
    steps::in_unit(t)?;
    Ok(cubic_of(src)?.at(t))
}

// The tangent at t, a third as long as the derivative; at an end whose control point coincides with it,
// towards the next control point, or else the chord.
pub fn eval_cubic_tangent_at(src: &[f32], t: f32) -> Result<Point, quads::Refusal>
    ensures value { result ≡ eval_answer 8 t src.now (C.cubic_tangent (C.cubic_of src.now) t) }
    ensures number { number_of_point result ≡ eval_number 8 t src.now }
    ensures values { values_of_point result ≡ eval_values 8 t src.now (C.cubic_tangent (C.cubic_of src.now) t) }
{
    steps::in_unit(t)?;
    Ok(cubic_of(src)?.tangent_at(t))
}

// Cuts at t, and stores the seven points of the two cubics.
pub fn chop_cubic_at2(src: &[f32], t: f32, dst: &mut [f32]) -> Result<(), quads::Refusal>
    ensures value { result ≡ chop_answer 8 14 t src.now dst.old }
    ensures buffer { dst.new ≡ chop_buffer 8 14 t src.now dst.old (C.cubic_chop (C.cubic_of src.now) t) }
    ensures number { number_of_chop result ≡ chop_number 8 14 t src.now dst.old }
{
    steps::in_open_unit(t)?;
    let new = cubic_of(src)?.chop_at2(t);
    lent::store(dst, &new)
}

// Where a cubic turns back along an axis on which its points are a, b, c and d.
pub fn find_cubic_extrema(a: f32, b: f32, c: f32, d: f32) -> Roots
    ensures value { result ≡ C.cubic_extrema a b c d }
    ensures number { number_of_roots result ≡ 0 }
    ensures inside { Rising (values_of_roots result) }
{
    let aa = d - a + 3.0 * (b - c);
    let bb = 2.0 * (a - b - b + c);
    let roots = quad_roots::find_unit_quad_roots(aa, bb, b - a);
    if let Roots::One(t) = roots {
        return Roots::One(t);
    }
    let Roots::Two(t, u) = roots else {
        return Roots::None;
    };
    Roots::Two(t, u)
}

// Where the curvature is zero.
pub fn find_cubic_inflections(src: &[f32]) -> Result<Roots, Refusal>
    ensures value { result ≡ C.inflections_answer src.now }
    ensures number { C.number_of_inflections result ≡ C.inflections_number src.now }
    ensures inside { Rising (C.values_of_inflections result) }
{
    let Ok(cubic) = cubic_of(src) else {
        return Err(Refusal::BufferTooShort);
    };
    let roots = cubic.inflections();
    if let Roots::One(t) = roots {
        return Ok(Roots::One(t));
    }
    let Roots::Two(t, u) = roots else {
        return Ok(Roots::None);
    };
    Ok(Roots::Two(t, u))
}
