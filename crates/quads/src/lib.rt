// Quads, three points by value or six lent numbers: points and tangents, chops, extrema and maximum curvature;
// and what cubics share with them.
// Carried over from `path_geometry.rs` of tiny-skia-path 0.12.0.
#![tactic(auto)]

ghost use Rattle.std.specs.Prelude.{◌≡◌, Ok, Err};
ghost use Rattle.quad_roots.specs.Roots.{number_of_divided, values_of_divided, Rising};
ghost use Rattle.quads.specs.Answers.{number_of_refusal, refusal_numbers, number_of_no_curvature, no_curvature_numbers};
ghost use Rattle.quads.specs.Answers.{number_of_point, values_of_point, number_of_chop, number_of_curvature, values_of_curvature};
ghost use Rattle.quads.specs.Answers.{short_pick, eval_number, eval_answer, eval_values, chop_number, chop_answer, chop_buffer};
ghost use Rattle.quads.specs.Quads as Q;

use answers::Numbered;
use point::Point;

pub mod lent;
pub mod steps;

#[derive(Clone, Copy)]
pub struct Quad {
    pub p0: Point,
    pub p1: Point,
    pub p2: Point,
}

// Why a point, a tangent or a chop is not given.
#[derive(Clone, Copy, Debug, PartialEq, Eq)]
pub enum Refusal {
    OutOfRange,
    BufferTooShort,
}

impl Numbered for Refusal {
    ghost number_of = { number_of_refusal };

    ghost above_zero = { refusal_numbers };

    fn number(self) -> u32 {
        match self {
            Refusal::OutOfRange => 8,
            Refusal::BufferTooShort => 2,
        }
    }
}

// Why the maximum curvature is not given.
#[derive(Clone, Copy, Debug, PartialEq, Eq)]
pub enum NoCurvature {
    Undefined,
    BufferTooShort,
}

impl Numbered for NoCurvature {
    ghost number_of = { number_of_no_curvature };

    ghost above_zero = { no_curvature_numbers };

    fn number(self) -> u32 {
        match self {
            NoCurvature::Undefined => 5,
            NoCurvature::BufferTooShort => 2,
        }
    }
}

// A quad at t, along one axis.
fn eval(p0: f32, p1: f32, p2: f32, t: f32) -> f32
    ensures { result ≡ Q.eval_axis t p0 p1 p2 }
{
    let a = p2 - (p1 + p1) + p0;
    let b = (p1 - p0) + (p1 - p0);
    (a * t + b) * t + p0
}

// A quad's derivative at t, along one axis.
fn slope(p0: f32, p1: f32, p2: f32, t: f32) -> f32
    ensures { result ≡ Q.slope_axis t p0 p1 p2 }
{
    let b = p1 - p0;
    let a = p2 - p1 - b;
    let half = a * t + b;
    half + half
}

// numer / denom, or 0 or 1 where it lies at or past that end.
#[tactic(auto, using(float_laws::proofs::Squares::nan_test))]
fn clamped(numer: f32, denom: f32) -> Result<f32, NoCurvature>
    ensures { result ≡ Q.clamped Ok (Err NoCurvature.Undefined) numer denom }
{
    if numer <= 0.0 {
        return Ok(0.0);
    }
    if numer >= denom {
        return Ok(1.0);
    }
    let t = numer / denom;
    if t.is_nan() {
        return Err(NoCurvature::Undefined);
    }
    Ok(t)
}

// A formula is of one axis, as docs/RULES.md has it, and is asked for x and for y.
impl Quad {
    // The point at t.
    #[tactic(auto, unfolding(crate::specs::Quads::quad_at))]
    fn at(self, t: f32) -> Point
        ensures { result ≡ Q.quad_at self t }
    {
        Point {
            x: eval(self.p0.x, self.p1.x, self.p2.x, t),
            y: eval(self.p0.y, self.p1.y, self.p2.y, t),
        }
    }

    // The derivative at t; at an end whose control point coincides with it, the chord.
    #[tactic(auto, unfolding(crate::specs::Quads::quad_tangent))]
    fn tangent_at(self, t: f32) -> Point
        ensures { result ≡ Q.quad_tangent self t }
    {
        let first = (t == 0.0) & (self.p0 == self.p1);
        let last = (t == 1.0) & (self.p1 == self.p2);
        if first | last {
            return self.p2 - self.p0;
        }
        Point {
            x: slope(self.p0.x, self.p1.x, self.p2.x, t),
            y: slope(self.p0.y, self.p1.y, self.p2.y, t),
        }
    }

    // The five points of the two quads that meet at t.
    #[tactic(auto, unfolding(crate::specs::Quads::quad_chop, point::specs::Numbers::flat))]
    fn chop_at(self, t: f32) -> [f32; 10]
        ensures { result ≡ Q.quad_chop self t }
    {
        let p01 = steps::interp(self.p0, self.p1, t);
        let p12 = steps::interp(self.p1, self.p2, t);
        let p012 = steps::interp(p01, p12, t);
        [
            self.p0.x, self.p0.y, p01.x, p01.y, p012.x, p012.y, p12.x, p12.y, self.p2.x, self.p2.y,
        ]
    }

    // Where the curvature is greatest.
    #[tactic(auto, using(float_laws::proofs::Squares::sum_of_squares), unfolding(crate::specs::Quads::quad_curvature))]
    fn max_curvature(self) -> Result<f32, NoCurvature>
        ensures { result ≡ Q.quad_curvature Ok (Err NoCurvature.Undefined) self }
    {
        let a = self.p1 - self.p0;
        let bx = self.p0.x - self.p1.x - self.p1.x + self.p2.x;
        let by = self.p0.y - self.p1.y - self.p1.y + self.p2.y;
        // The Rust flips both signs where the denominator is below 0, which a sum of squares never is.
        clamped(-(a.x * bx + a.y * by), bx * bx + by * by)
    }
}

// The quad of six lent numbers, if there are so many: by places, each of which a wrong version exchanges.
fn quad_of(src: &[f32]) -> Result<Quad, Refusal>
    ensures { result ≡ short_pick 6 src.now (Err Refusal.BufferTooShort) (Ok (Q.quad_of src.now)) }
{
    if src.len() < 6 {
        return Err(Refusal::BufferTooShort);
    }
    Ok(Quad {
        p0: Point::from_xy(src[0], src[1]),
        p1: Point::from_xy(src[2], src[3]),
        p2: Point::from_xy(src[4], src[5]),
    })
}

// The point at t. By `?` this call, its neighbour and the two of cubics are two lines each: a trait over both shapes
// would say more than it spares.
pub fn eval_quad_at(src: &[f32], t: f32) -> Result<Point, Refusal>
    ensures value { result ≡ eval_answer 6 t src.now (Q.quad_at (Q.quad_of src.now) t) }
    ensures number { number_of_point result ≡ eval_number 6 t src.now }
    ensures values { values_of_point result ≡ eval_values 6 t src.now (Q.quad_at (Q.quad_of src.now) t) }
{
    steps::in_unit(t)?;
    Ok(quad_of(src)?.at(t))
}

// The tangent at t, as long as the derivative; at an end whose control point coincides with it, the chord.
pub fn eval_quad_tangent_at(src: &[f32], t: f32) -> Result<Point, Refusal>
    ensures value { result ≡ eval_answer 6 t src.now (Q.quad_tangent (Q.quad_of src.now) t) }
    ensures number { number_of_point result ≡ eval_number 6 t src.now }
    ensures values { values_of_point result ≡ eval_values 6 t src.now (Q.quad_tangent (Q.quad_of src.now) t) }
{
    steps::in_unit(t)?;
    Ok(quad_of(src)?.tangent_at(t))
}

// Cuts at t, and stores the five points of the two quads.
pub fn chop_quad_at(src: &[f32], t: f32, dst: &mut [f32]) -> Result<(), Refusal>
    ensures value { result ≡ chop_answer 6 10 t src.now dst.old }
    ensures buffer { dst.new ≡ chop_buffer 6 10 t src.now dst.old (Q.quad_chop (Q.quad_of src.now) t) }
    ensures number { number_of_chop result ≡ chop_number 6 10 t src.now dst.old }
{
    steps::in_open_unit(t)?;
    let new = quad_of(src)?.chop_at(t);
    lent::store(dst, &new)
}

// Where a quad turns back along an axis on which its points are a, b and c.
pub fn find_quad_extrema(a: f32, b: f32, c: f32) -> Option<f32>
    ensures value { result ≡ Q.quad_extrema a b c }
    ensures number { number_of_divided result ≡ 0 }
    ensures inside { Rising (values_of_divided result) }
{
    let Some(t) = quad_roots::valid_unit_divide(a - b, a - b - b + c) else {
        return None;
    };
    Some(t)
}

// Where the curvature is greatest: 0, 1, or a quotient.
pub fn find_quad_max_curvature(src: &[f32]) -> Result<f32, NoCurvature>
    ensures value { result ≡ Q.curvature_answer src.now }
    ensures number { number_of_curvature result ≡ Q.curvature_number src.now }
    ensures values { values_of_curvature result ≡ Q.curvature_values src.now }
{
    let Ok(quad) = quad_of(src) else {
        return Err(NoCurvature::BufferTooShort);
    };
    quad.max_curvature()
}
