// The cut itself, once there is room for it. Carried over from `path_geometry.rs` of tiny-skia-path 0.12.0.
ghost use Rattle.std.specs.Prelude.{◌≡◌, ◌+◌, ◌*◌, ◌^◌, ◌≤◌, length};
ghost use Rattle.std.proofs.lemmas.List.Edits.{sets};
ghost use Rattle.conic.specs.Chop.{chop_by_rule};
ghost use Rattle.point.specs.Numbers.{flat, points_of};
ghost use Rattle.conic_cut.specs.Cut.{all_finite, pinned, written};
ghost use Rattle.conic_cut.specs.Ladder.{deepest};

use crate::{storing, subdividing};
use conic::Conic;
use point::Point;

// 2 to the level. That a level is no deeper than the deepest, and that there is room, each function here asks by a clause of its own:
// a level is the number that C gives, a buffer what it lends, and both are tested once, in lib.rt.
pub fn quads(level: u32) -> usize
    requires { level ≤ deepest }
    ensures { result ≡ 2 ^ level }
{
    1usize << level
}

// Whether each point of s, two numbers a point, passes the crate's finite test. All are tested, with no early end, so that
// the loop goes over eight numbers at a time (docs/SPEED.md).
#[tactic(auto, using(crate::proofs::Stores::all_more, crate::proofs::Stores::all_end))]
fn all_finite(s: &[f32]) -> bool
    ensures { result ≡ all_finite (points_of s.now) }
{
    let mut ok = true;
    for i in 0..s.len() / 2 {
        let p = Point {
            x: s[2 * i],
            y: s[2 * i + 1],
        };
        ok = ok & p.is_finite();
    }
    ok
}

// Stores all the points of the cut. Where one is not finite, all but the first and the last become c's middle point.
#[tactic(auto, using(crate::proofs::Stores::stored_fine, crate::proofs::Stores::stored_pinned))]
fn store_cut(out: &mut [f32], c: Conic, level: u32)
    requires room { 2 + 4 * 2 ^ level ≤ length out.old }
    requires depth { level ≤ deepest }
    ensures { out.new ≡ sets out.old 0 (flat (written chop_by_rule level c)) }
{
    let at = storing::put(out, 0, c.p0);
    let end = subdividing::cut(out, at, c, level);
    if all_finite(&out[0..end]) {
        return;
    }
    store_pinned(out, c, level);
}

// Stores c's ends, with its middle point in every place between them.
#[tactic(auto, using(crate::proofs::Stores::stored_pins))]
fn store_pinned(out: &mut [f32], c: Conic, level: u32)
    requires room { 2 + 4 * 2 ^ level ≤ length out.old }
    requires depth { level ≤ deepest }
    ensures { out.new ≡ sets out.old 0 (flat (pinned level c)) }
{
    let interior = 2 * quads(level) - 1;
    let next = storing::put(out, 0, c.p0);
    storing::pin(out, next, c.p1, interior);
    storing::put(out, next + 2 * interior, c.p2);
}

// The same as `store_cut`. Where an end is not finite the points are pinned whatever the cut is, so it is not made.
#[tactic(auto, using(crate::proofs::Order::cut_ends_pinned))]
pub fn store(out: &mut [f32], c: Conic, level: u32)
    requires room { 2 + 4 * 2 ^ level ≤ length out.old }
    requires depth { level ≤ deepest }
    ensures { out.new ≡ sets out.old 0 (flat (written chop_by_rule level c)) }
{
    let p0 = c.p0;
    let p2 = c.p2;
    if p0.is_finite() & p2.is_finite() {
        store_cut(out, c, level);
        return;
    }
    store_pinned(out, c, level);
}
