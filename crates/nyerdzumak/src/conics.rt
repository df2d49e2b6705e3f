// The conics' calls. A conic is six lent numbers, x and y of each point, and a weight.
ghost use Rattle.std.specs.Prelude.{◌≡◌, [], ◌∷◌, ◌≤◌, length};
ghost use Rattle.conic.specs.declared.Rule.TheVariants.{Product, Exact, BothAxes};
ghost use Rattle.conic.specs.Between.{product_test, exact_test};
ghost use Rattle.conic.specs.Chop.{chop_of, chop_by_rule};
ghost use Rattle.conic.specs.Level.{refuse_level, level_of};
ghost use Rattle.conic.specs.Refusal.{number_of_refusal, values_of_refusal};
ghost use Rattle.conic.specs.Rule.{X, Y};
ghost use Rattle.conic.specs.Source.{conic_of, short_source, refuse_source};
ghost use Rattle.conic_cut.specs.Auto.{auto_points};
ghost use Rattle.conic_cut.specs.Cut.{refuse_cut, cut_buffer, number_of_cut, values_of_cut};
ghost use Rattle.conic_cut.specs.Order.{OrderAlong};
ghost use Rattle.nyerdzumak.specs.Given.{first_or, filled_or, points_or, auto_from};
ghost use Rattle.nyerdzumak.specs.Lent.{half_numbers};

use conic::{Conic, Halves, Refusal, Rule};
use conic_cut::AutoConicToQuads;

// The crate's between test: whether (a - b) * (c - b) is at most 0, as it is computed.
pub fn nz_between_product(a: f32, b: f32, c: f32) -> bool
    ensures { result ≡ product_test a b c }
{
    conic::between_product(a, b, c)
}

// Whether a ≤ b ≤ c or a ≥ b ≥ c.
pub fn nz_between_exact(a: f32, b: f32, c: f32) -> bool
    ensures { result ≡ exact_test a b c }
{
    conic::between_exact(a, b, c)
}

// Both halves, seven numbers each.
#[tactic(auto, unfolding(point::specs::Numbers::flat))]
fn numbers(h: Halves) -> [f32; 14]
    ensures { result ≡ half_numbers h }
{
    [
        h.first.p0.x,
        h.first.p0.y,
        h.first.p1.x,
        h.first.p1.y,
        h.first.p2.x,
        h.first.p2.y,
        h.first.weight,
        h.second.p0.x,
        h.second.p0.y,
        h.second.p1.x,
        h.second.p1.y,
        h.second.p2.x,
        h.second.p2.y,
        h.second.weight,
    ]
}

// The halves of a lent conic.
fn halved(src: &[f32], weight: f32) -> Result<[f32; 14], Refusal>
    ensures { result ≡ refuse_source src.now Err (Ok (half_numbers (chop_of (conic_of src.now weight Product)))) }
{
    let c = Conic::from_points(src, weight, Rule::Product)?;
    Ok(numbers(c.chop()))
}

// Halves a conic as the formulas say, with no correction, so that a rule has no part in it: x and y of three points and a
// weight, for each half.
pub fn nz_conic_chop(src: &[f32], weight: f32, halves: &mut [f32; 14]) -> u32
    ensures value { result ≡ refuse_source src.now number_of_refusal 0 }
    ensures halves { halves.new ≡ filled_or halves.old
        (refuse_source src.now values_of_refusal (half_numbers (chop_of (conic_of src.now weight Product)))) }
{
    answers::give(halved(src, weight), halves)
}

// The least level, from 1 on, at which the estimated distance of the quads from the conic is within the tolerance; at most the
// ceiling, 4 or 6, where it need not be.
pub fn nz_conic_compute_quad_pow2(
    src: &[f32],
    weight: f32,
    tolerance: f32,
    ceiling: u32,
    level: &mut u32,
) -> u32
    ensures value { result ≡ refuse_level ceiling (short_source src.now) (conic_of src.now weight Product) tolerance number_of_refusal 0 }
    ensures level { level.new ≡ first_or level.old
        (refuse_level ceiling (short_source src.now) (conic_of src.now weight Product) tolerance values_of_refusal
        (level_of ceiling (conic_of src.now weight Product) tolerance ∷ [])) }
{
    let chosen = Conic::compute_quad_pow2_from(src, weight, tolerance, ceiling);
    answers::give(chosen, level)
}

// Cuts a conic into 2^level quads by the crate's own between test.
pub fn nz_conic_chop_into_quads_pow2(src: &[f32], weight: f32, level: u32, out: &mut [f32]) -> u32
    ensures value { result ≡ refuse_cut level (length out.old) (short_source src.now) number_of_refusal 0 }
    ensures buffer { out.new ≡ cut_buffer chop_by_rule level (conic_of src.now weight Product)
        (short_source src.now) out.old }
{
    let cut = conic_cut::chop_into_quads_pow2_from(out, src, weight, Rule::Product, level);
    answers::number(cut)
}

// The same by the exact between test. From three finite points whose middle y lies between the end ys or equals one, the
// ys along the written points keep one direction, rising or falling, whatever the weight. The xs are not put in
// order.
pub fn nz_cut_in_order(src: &[f32], weight: f32, level: u32, out: &mut [f32]) -> u32
    ensures value { result ≡ refuse_cut level (length out.old) (short_source src.now) number_of_refusal 0 }
    ensures buffer { out.new ≡ cut_buffer chop_by_rule level (conic_of src.now weight Exact)
        (short_source src.now) out.old }
    ensures order { 6 ≤ length src.now → OrderAlong Y level (conic_of src.now weight Exact) out.old
        out.new }
{
    let cut = conic_cut::chop_into_quads_pow2_from(out, src, weight, Rule::Exact, level);
    answers::number(cut)
}

// The same, and the xs are kept in order as the ys are. From three finite points the xs along the written points keep one
// direction where the middle x lies between the end xs or equals one, and so do the ys where the middle y does.
pub fn nz_cut_in_order_both(src: &[f32], weight: f32, level: u32, out: &mut [f32]) -> u32
    ensures value { result ≡ refuse_cut level (length out.old) (short_source src.now) number_of_refusal 0 }
    ensures buffer { out.new ≡ cut_buffer chop_by_rule level (conic_of src.now weight BothAxes)
        (short_source src.now) out.old }
    ensures order_x { 6 ≤ length src.now → OrderAlong X level (conic_of src.now weight BothAxes) out.old
        out.new }
    ensures order_y { 6 ≤ length src.now → OrderAlong Y level (conic_of src.now weight BothAxes) out.old
        out.new }
{
    let cut = conic_cut::chop_into_quads_pow2_from(out, src, weight, Rule::BothAxes, level);
    answers::number(cut)
}

// Stores the crate's own cut of a lent conic, if there is one; and how many quads it has.
fn auto(src: &[f32], weight: f32, out: &mut [f32; 128]) -> Result<usize, Refusal>
    ensures value { result ≡ auto_from src.now weight }
    ensures out { out.new ≡ points_or out.old (auto_from src.now weight)
        (auto_points (conic_of src.now weight Product)) }
{
    let c = Conic::from_points(src, weight, Rule::Product)?;
    let cut = AutoConicToQuads::compute(c.p0, c.p1, c.p2, c.weight);
    let points = cut.points;
    let quads = cut.answer?;
    *out = points;
    Ok(quads)
}

// The crate's own choice: the cut by its own between test at the level that a tolerance of a quarter chooses, by its own
// ceiling.
pub fn nz_auto_conic_to_quads(
    src: &[f32],
    weight: f32,
    out: &mut [f32; 128],
    quads: &mut usize,
) -> u32
    ensures value { result ≡ number_of_cut (auto_from src.now weight) }
    ensures out { out.new ≡ points_or out.old (auto_from src.now weight)
        (auto_points (conic_of src.now weight Product)) }
    ensures quads { quads.new ≡ first_or quads.old (values_of_cut (auto_from src.now weight)) }
{
    let cut = auto(src, weight, out);
    answers::give(cut, quads)
}
