// The points of a cut, by recursion on the level. Carried over from `subdivide` in `path_geometry.rs` of tiny-skia-path 0.12.0.
ghost use Rattle.std.specs.Prelude.{◌≡◌, ◌++◌, ◌+◌, ◌*◌, ◌^◌, ◌≤◌, length};
ghost use Rattle.std.proofs.lemmas.List.Edits.{sets};
ghost use Rattle.conic.specs.Chop.{conic_from, chop_by_rule};
ghost use Rattle.point.specs.Numbers.{flat};
ghost use Rattle.point.specs.Point.{point_from};
ghost use Rattle.conic_cut.specs.Cut.{cut_points};
ghost use Rattle.conic_cut.specs.Ladder.{deepest, rungs_of, rung_at, Rungs};

use crate::storing;
use conic::depth::Depth;
use conic::{Conic, Halves, Rule};
use point::Point;

// The highest level of a cut, by which the ladder has its room. The proofs are by induction over the level.
const DEEPEST: usize = Conic::MAX_CUT_LEVEL as usize;
// Two numbers for each level, a scale and a weight. A ladder is no type of its own, nor an array of `Depth`: what `Rungs` says of it
// is of the level and the weight of a call too, and the lowest rung has no weight.
const RUNGS: usize = 2 * DEEPEST;

// The rungs of a cut: a division and a root for each depth, and not for each chop. The halves of level 0 are stored and not
// cut, so that no root is taken for their weight.
#[tactic(auto, using(crate::proofs::Ladder::rungs_more, crate::proofs::Ladder::rungs_last))]
fn ladder(rungs: &mut [f32; RUNGS], weight: f32, level: u32)
    requires { (1 ≤ level) × (level ≤ deepest) }
    ensures { rungs.new ≡ rungs_of rungs.old level weight }
{
    let mut w = weight;
    for n in (1..level as usize).rev() {
        rungs[2 * n] = Depth::scale_of(w);
        w = Conic::subdivide_weight_value(w);
        rungs[2 * n + 1] = w;
    }
    rungs[0] = Depth::scale_of(w);
}

// What the conics of a level share. At level 1 the ladder holds no weight: halves of level 0 are stored, not cut.
fn rung(rungs: &[f32; RUNGS], level: u32) -> Depth
    requires { (1 ≤ level) × (level ≤ deepest) }
    ensures { result ≡ rung_at rungs.now level }
{
    let at = 2 * (level as usize - 1);
    let scale = rungs[at];
    let weight = rungs[at + 1];
    Depth { scale, weight }
}

// Stores all the points of the cut but the first from `at` on, and answers the next place. The conic comes in numbers: halves
// that were corrected are put together from single numbers, and read back as a conic by value they wait for these stores
// (docs/SPEED.md, "numbers for the part that corrects").
fn subdivide_in_full(
    out: &mut [f32],
    at: usize,
    rungs: &[f32; RUNGS],
    x0: f32,
    y0: f32,
    x1: f32,
    y1: f32,
    x2: f32,
    y2: f32,
    weight: f32,
    rule: Rule,
    level: u32,
) -> usize
    requires { (at + 4 * 2 ^ level ≤ length out.old) × ((1 ≤ level) × ((level ≤ deepest) × (Rungs rungs.now level weight))) }
    ensures { (result ≡ at + 4 * 2 ^ level) × (out.new ≡ sets out.old at (flat (cut_points chop_by_rule level
        (conic_from (point_from x0 y0) (point_from x1 y1) (point_from x2 y2) weight rule)))) }
{
    let p0 = Point { x: x0, y: y0 };
    let p1 = Point { x: x1, y: y1 };
    let p2 = Point { x: x2, y: y2 };
    let h = rung(rungs, level).chop(Conic::new(p0, p1, p2, weight, rule));
    let less = level - 1;
    if less == 0 {
        return storing::put_halves(out, at, h);
    }
    // the rules by name, since a wrong version changes each
    let f = h.first;
    let first_rule = f.rule;
    let g = h.second;
    let second_rule = g.rule;
    let next = subdivide_in_full(
        out, at, rungs, f.p0.x, f.p0.y, f.p1.x, f.p1.y, f.p2.x, f.p2.y, f.weight, first_rule, less,
    );
    subdivide_in_full(
        out,
        next,
        rungs,
        g.p0.x,
        g.p0.y,
        g.p1.x,
        g.p1.y,
        g.p2.x,
        g.p2.y,
        g.weight,
        second_rule,
        less,
    )
}

// The same of a conic by value.
fn in_full(out: &mut [f32], at: usize, rungs: &[f32; RUNGS], c: Conic, level: u32) -> usize
    requires { (at + 4 * 2 ^ level ≤ length out.old) × ((1 ≤ level) × ((level ≤ deepest) × (Rungs rungs.now level c.weight))) }
    ensures { (result ≡ at + 4 * 2 ^ level) × (out.new ≡ sets out.old at (flat (cut_points chop_by_rule level c))) }
{
    subdivide_in_full(
        out, at, rungs, c.p0.x, c.p0.y, c.p1.x, c.p1.y, c.p2.x, c.p2.y, c.weight, c.rule, level,
    )
}

// Stores both halves, each cut once more. Mostly the formulas give finite middles and lines that stay, and the points are stored
// from where they were computed.
fn put_last(out: &mut [f32], at: usize, rungs: &[f32; RUNGS], h: Halves) -> usize
    requires room { at + 16 ≤ length out.old }
    requires first_half { Rungs rungs.now 1 h.first.weight }
    requires second_half { Rungs rungs.now 1 h.second.weight }
    ensures { (result ≡ at + 16) × (out.new ≡ sets out.old at
        (flat (cut_points chop_by_rule 1 h.first ++ cut_points chop_by_rule 1 h.second))) }
{
    let f = h.first;
    let g = h.second;
    let d = rung(rungs, 1);
    let l = conic::plain_lines(f, d.scale);
    let k = conic::plain_lines(g, d.scale);
    let whole = conic::is_whole(l) & conic::is_whole(k);
    if whole & conic::is_settled(f, l) & conic::is_settled(g, k) {
        let next = storing::put_halves(out, at, conic::halves_of(f, l, d.weight));
        return storing::put_halves(out, next, conic::halves_of(g, k, d.weight));
    }
    let next = in_full(out, at, rungs, f, 1);
    in_full(out, next, rungs, g, 1)
}

// Stores the same points as `in_full`. A chop that needs a correction is left to that one, with all that is below it: in two
// places, so that it stays a call.
fn subdivide(out: &mut [f32], at: usize, rungs: &[f32; RUNGS], c: Conic, level: u32) -> usize
    requires { (at + 4 * 2 ^ level ≤ length out.old) × ((2 ≤ level) × ((level ≤ deepest) × (Rungs rungs.now level c.weight))) }
    ensures { (result ≡ at + 4 * 2 ^ level) × (out.new ≡ sets out.old at (flat (cut_points chop_by_rule level c))) }
{
    let d = rung(rungs, level);
    let l = conic::plain_lines(c, d.scale);
    if !conic::is_whole(l) {
        return in_full(out, at, rungs, c, level);
    }
    if !conic::is_settled(c, l) {
        return in_full(out, at, rungs, c, level);
    }
    let h = conic::halves_of(c, l, d.weight);
    let less = level - 1;
    if less == 1 {
        return put_last(out, at, rungs, h);
    }
    let next = subdivide(out, at, rungs, h.first, less);
    subdivide(out, next, rungs, h.second, less)
}

// c itself, put together number by number. What is handed on by value stands in memory, and a read that spans several stores
// waits for them (docs/SPEED.md).
fn put_together(c: Conic) -> Conic
    ensures { result ≡ c }
{
    Conic {
        p0: Point::from_xy(c.p0.x, c.p0.y),
        p1: Point::from_xy(c.p1.x, c.p1.y),
        p2: Point::from_xy(c.p2.x, c.p2.y),
        weight: c.weight,
        rule: c.rule,
    }
}

// Stores all the points of the cut but the first from `at` on, at any level, and answers the next place.
#[tactic(auto, using(crate::proofs::Ladder::climbed))]
pub fn cut(out: &mut [f32], at: usize, c: Conic, level: u32) -> usize
    requires room { at + 4 * 2 ^ level ≤ length out.old }
    requires depth { level ≤ deepest }
    ensures { (result ≡ at + 4 * 2 ^ level) × (out.new ≡ sets out.old at (flat (cut_points chop_by_rule level c))) }
{
    if level == 0 {
        return storing::put_quad(out, at, c);
    }
    let mut rungs = [0.0f32; RUNGS];
    ladder(&mut rungs, c.weight, level);
    if level == 1 {
        return in_full(out, at, &rungs, c, level);
    }
    subdivide(out, at, &rungs, put_together(c), level)
}
