// Conics cut into quads. Where the three points are finite, the written points only rise or only fall along each axis that
// the conic's rule puts in order by the exact test, if its middle lies between its ends there or equals one of them: the
// clause `order` of the contracts. That is y by the exact rule, and x and y by the rule of both axes.
// Carried over from `path_geometry.rs` of tiny-skia-path 0.12.0; the rule, and an answer for each refusal, are added.
#![tactic(auto)]

ghost use Rattle.std.specs.Prelude.{◌≡◌, false, ◌≤◌, length};
ghost use Rattle.conic.specs.declared.Rule.TheVariants.{Product};
ghost use Rattle.conic.specs.Chop.{conic_from, chop_by_rule};
ghost use Rattle.conic.specs.Source.{conic_of, short_source};
ghost use Rattle.conic_cut.specs.Auto.{zeros, auto_answer, auto_points, Computed};
ghost use Rattle.conic_cut.specs.Cut.{CutInto};
ghost use Rattle.conic_cut.specs.Order.{OrderKept};

use conic::{Conic, Refusal, Rule};
use point::Point;

mod cutting;
mod storing;
mod subdividing;

// Cuts c by its rule into 2^level quads, which share their ends: x and y of each point, from the start of `out` on; and how
// many quads were written.
// A level above 6 is refused, and then room for fewer than 2^level * 2 + 1 points; `out` is untouched.
#[tactic(auto, using(crate::proofs::Answers::answers_of_cut), unfolding(crate::specs::Cut::cut_answer, crate::specs::Cut::cut_buffer))]
pub fn chop_into_quads_pow2(out: &mut [f32], c: Conic, level: u32) -> Result<usize, Refusal>
    ensures cut_into { CutInto chop_by_rule level c false out.old result out.new }
    ensures order { OrderKept level c out.old out.new }
{
    if Conic::MAX_CUT_LEVEL < level {
        return Err(Refusal::LevelTooHigh);
    }
    let quads = cutting::quads(level);
    if out.len() < 4 * quads + 2 {
        return Err(Refusal::BufferTooShort);
    }
    cutting::store(out, c, level);
    Ok(quads)
}

// The same of the conic of the first six numbers of `src`, with this weight and this rule.
#[tactic(auto, using(crate::proofs::Answers::answers_of_cut), unfolding(crate::specs::Cut::cut_answer, crate::specs::Cut::cut_buffer, conic::specs::Source::source_answer))]
pub fn chop_into_quads_pow2_from(
    out: &mut [f32],
    src: &[f32],
    weight: f32,
    rule: Rule,
    level: u32,
) -> Result<usize, Refusal>
    ensures cut_into { CutInto chop_by_rule level (conic_of src.now weight rule) (short_source src.now)
        out.old result out.new }
    ensures order { 6 ≤ length src.now
        → OrderKept level (conic_of src.now weight rule) out.old out.new }
{
    if level > Conic::MAX_CUT_LEVEL {
        return Err(Refusal::LevelTooHigh);
    }
    let c = Conic::from_points(src, weight, rule)?;
    chop_into_quads_pow2(out, c, level)
}

// Cuts c at the level that a tolerance of a quarter chooses, by the crate's own ceiling.
#[tactic(auto, using(crate::proofs::Autos::auto_cut, crate::proofs::Autos::auto_refused))]
fn chop_by_tolerance(points: &mut [f32], c: Conic) -> Result<usize, Refusal>
    requires { points.old ≡ zeros }
    ensures answer { result ≡ auto_answer c }
    ensures points { points.new ≡ auto_points c }
{
    let level = c.compute_quad_pow2(0.25, Conic::MAX_CONIC_TO_QUAD_POW2)?;
    chop_into_quads_pow2(points, c, level)
}

// A cut at the level that a tolerance of a quarter chooses, by the crate's own ceiling: 64 places for points, zero where none is
// written.
#[derive(Clone, Copy)]
pub struct AutoConicToQuads {
    pub points: [f32; 128],
    pub answer: Result<usize, Refusal>,
}

impl AutoConicToQuads {
    // The crate's cut, by the product rule.
    #[tactic(auto, unfolding(crate::specs::Auto::zeros))]
    pub fn compute(p0: Point, p1: Point, p2: Point, weight: f32) -> Self
        ensures { Computed (conic_from p0 p1 p2 weight Product) result }
    {
        let c = Conic::new(p0, p1, p2, weight, Rule::Product);
        let mut points = [0.0f32; 128];
        let answer = chop_by_tolerance(&mut points, c);
        AutoConicToQuads { points, answer }
    }
}
