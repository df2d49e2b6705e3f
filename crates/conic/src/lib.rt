// Conics: three points, a weight and a rule. How one is halved, and into how many quads it is cut.
// Carried over from `path_geometry.rs` of tiny-skia-path 0.12.0; the rules, and an answer for each refusal, are added.
#![tactic(auto)]

ghost use Rattle.std.specs.Prelude.{◌≡◌, false};
ghost use Rattle.conic.specs.declared.Rule.TheVariants.{Product};
ghost use Rattle.conic.specs.Between.{product_test, exact_test};
ghost use Rattle.conic.specs.Chop.{conic_from, weight_of, chop_of, chop_by_rule};
ghost use Rattle.conic.specs.Level.{Chosen};
ghost use Rattle.conic.specs.Refusal.{number_of_refusal, refusal_numbers};
ghost use Rattle.conic.specs.Source.{conic_of, short_source, Taken};

use answers::Numbered;
use depth::Depth;
use leveling::Limits;
use point::Point;

mod chopping;
pub mod depth;
mod leveling;
mod mending;
mod ruling;

// The parts of a chop that needs no correction, which a cut asks for one by one. A single conic is halved by `chop_by_rule`.
pub use chopping::{Line, Lines, halves as halves_of, is_settled, is_whole, plain_lines};

// A conic from p0 to p2, bent towards p1. All that is cut from it goes by its rule.
#[derive(Clone, Copy)]
pub struct Conic {
    pub p0: Point,
    pub p1: Point,
    pub p2: Point,
    pub weight: f32,
    pub rule: Rule,
}

// What a chop makes of a conic; the halves meet in the middle.
#[derive(Clone, Copy)]
pub struct Halves {
    pub first: Conic,
    pub second: Conic,
}

// Which between test a cut goes by, and along which axes: y alone, by either test, or both, by the exact one.
#[derive(Clone, Copy, Debug, PartialEq, Eq)]
pub enum Rule {
    Product,
    Exact,
    BothAxes,
}

// Why a call does nothing.
#[derive(Clone, Copy, Debug, PartialEq, Eq)]
pub enum Refusal {
    LevelTooHigh,
    BufferTooShort,
    PointNotFinite,
    BadTolerance,
}

// Their numbers in docs/RULES.md, "Answer numbers".
impl Numbered for Refusal {
    ghost number_of = { number_of_refusal };

    ghost above_zero = { refusal_numbers };

    fn number(self) -> u32 {
        match self {
            Refusal::LevelTooHigh => 1,
            Refusal::BufferTooShort => 2,
            Refusal::PointNotFinite => 3,
            Refusal::BadTolerance => 4,
        }
    }
}

// The crate's test: whether (a - b)(c - b), each operation rounded, is at most 0. So it passes where the product underflows
// to 0, and fails where it is NaN, as infinity times 0 is.
pub fn between_product(a: f32, b: f32, c: f32) -> bool
    ensures { result ≡ product_test a b c }
{
    (a - b) * (c - b) <= 0.0
}

// Whether a ≤ b ≤ c or a ≥ b ≥ c; never where one of them is NaN.
pub fn between_exact(a: f32, b: f32, c: f32) -> bool
    ensures { result ≡ exact_test a b c }
{
    ((a <= b) & (b <= c)) | ((a >= b) & (b >= c))
}

impl Conic {
    // The crate's own ceiling of a level choice, which is that of `AutoConicToQuads`.
    pub const MAX_CONIC_TO_QUAD_POW2: u32 = 4;

    // The highest level of a cut.
    pub const MAX_CUT_LEVEL: u32 = 6;

    // The conic of these points, this weight and this rule.
    pub fn new(p0: Point, p1: Point, p2: Point, weight: f32, rule: Rule) -> Self
        ensures { result ≡ conic_from p0 p1 p2 weight rule }
    {
        Conic {
            p0,
            p1,
            p2,
            weight,
            rule,
        }
    }

    // The conic of the first six numbers, x and y of each point, by places; refused where there are fewer.
    #[tactic(auto, using(crate::proofs::Sources::taken), unfolding(crate::specs::Source::source_answer, crate::specs::Source::conic_of))]
    pub fn from_points(src: &[f32], weight: f32, rule: Rule) -> Result<Conic, Refusal>
        ensures { Taken src.now weight rule result }
    {
        if src.len() < 6 {
            return Err(Refusal::BufferTooShort);
        }
        let p0 = Point {
            x: src[0],
            y: src[1],
        };
        let p1 = Point {
            x: src[2],
            y: src[3],
        };
        let p2 = Point {
            x: src[4],
            y: src[5],
        };
        Ok(Conic::new(p0, p1, p2, weight, rule))
    }

    // Both halves, as the formulas give them, with the conic's rule.
    #[tactic(auto, unfolding(crate::specs::Chop::chop_of))]
    pub fn chop(self) -> Halves
        ensures { result ≡ chop_of self }
    {
        let d = Depth::of(self.weight);
        let l = chopping::chopped(self, d.scale);
        chopping::halves(self, l, d.weight)
    }

    // The weight of both halves, by the conic's.
    pub fn subdivide_weight_value(weight: f32) -> f32
        ensures { result ≡ weight_of weight }
    {
        float_ground::sqrt_f32(0.5 + weight * 0.5)
    }

    // Both halves, moved into order along each axis on which the rule's test finds the conic's own points in order.
    #[tactic(auto, unfolding(crate::specs::Chop::chop_by_rule))]
    pub fn chop_by_rule(self) -> Halves
        ensures { result ≡ chop_by_rule self }
    {
        Depth::of(self.weight).chop(self)
    }

    // The least level, from 1 on, at which the estimate of the quads' distance from the conic is within the tolerance; at
    // most the ceiling, where it need not be. Refused for a ceiling that is neither of the two above, then for a bad
    // tolerance, and then for a point that is not finite.
    #[tactic(auto, using(crate::proofs::Levels::chosen), unfolding(crate::specs::Level::level_answer))]
    pub fn compute_quad_pow2(self, tolerance: f32, ceiling: u32) -> Result<u32, Refusal>
        ensures { Chosen ceiling false self tolerance result }
    {
        Limits::new(tolerance, ceiling)?.level(self)
    }

    // The same of the conic of the first six numbers. Fewer are refused after a bad tolerance. A rule has no part in it.
    #[tactic(auto, using(crate::proofs::Levels::chosen), unfolding(crate::specs::Level::level_answer, crate::specs::Source::source_answer))]
    pub fn compute_quad_pow2_from(
        src: &[f32],
        weight: f32,
        tolerance: f32,
        ceiling: u32,
    ) -> Result<u32, Refusal>
        ensures { Chosen ceiling (short_source src.now) (conic_of src.now weight Product) tolerance result }
    {
        let limits = Limits::new(tolerance, ceiling)?;
        let c = Conic::from_points(src, weight, Rule::Product)?;
        limits.level(c)
    }
}
