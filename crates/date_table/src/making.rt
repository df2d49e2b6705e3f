// A table from a conic, once there is room for it.
ghost use Rattle.std.specs.Prelude.{◌≡◌, ◌^◌, ◌≤◌, false, length};
ghost use Rattle.std.proofs.lemmas.List.Edits.{sets};
ghost use Rattle.conic.specs.Level.{ceiling};
ghost use Rattle.point.specs.Numbers.{points_of};
ghost use Rattle.date_table.specs.Making.{rounded_of, table_room, stored_by, made_answer, made_table};
ghost use Rattle.date_table.specs.Table.{check_of};

use super::{Refusal, lookup, whole};
use conic::{Conic, Rule};

// Of a cut at the highest level: its quads, the numbers of its points, and those of its table.
const QUADS: usize = 1 << Conic::MAX_CUT_LEVEL;

const CUT: usize = 2 * (2 * QUADS + 1);

const TABLE: usize = 2 * (QUADS + 1);

// 2 to the level; a table has one entry more. conic_cut has the same line inside: a call for it would be public, and longer.
pub fn spans(level: u32) -> usize
    requires { level ≤ ceiling }
    ensures { result ≡ 2 ^ level }
{
    1usize << level
}

// Stores every second point, from the first on, rounded down. By places: of what `chunks_exact_mut` lends nothing is known after.
#[tactic(auto, using(crate::proofs::Taken::entries))]
fn round_into(out: &mut [u32], points: &[f32])
    requires { length (rounded_of (points_of points.now)) ≤ length out.old }
    ensures { out.new ≡ sets out.old 0 (rounded_of (points_of points.now)) }
{
    for i in 0..(points.len() + 2) / 4 {
        let from = 4 * i;
        let to = 2 * i;
        out[to] = whole::round_down(points[from]);
        out[to + 1] = whole::round_down(points[from + 1]);
    }
}

// Stores every second point, rounded down to n numbers, in `table`, if they make one. They are rounded into another buffer,
// since nothing may be stored before all are tested. Both are lent whole, so that the wrong version that exchanges them can be tried.
#[tactic(auto, using(crate::proofs::Answers::in_front))]
fn store_tested(
    table: &mut [u32],
    rounded: &mut [u32],
    points: &[f32],
    n: usize,
) -> Result<(), Refusal>
    requires numbers { length (rounded_of (points_of points.now)) ≡ n }
    requires table_room { n ≤ length table.old }
    requires rounded_room { n ≤ length rounded.old }
    ensures value { result ≡ check_of (rounded_of (points_of points.now)) }
    ensures table { table.new ≡ stored_by result table.old (rounded_of (points_of points.now)) }
{
    round_into(rounded, points);
    let whole = &rounded[0..n];
    lookup::test(whole)?;
    table[..n].copy_from_slice(whole);
    Ok(())
}

// Stores the table of c, if it has one.
pub fn store(table: &mut [u32], c: Conic, level: u32) -> Result<usize, Refusal>
    requires depth { level ≤ ceiling }
    requires room { table_room level ≤ length table.old }
    ensures value { result ≡ made_answer level (length table.old) false c }
    ensures table { table.new ≡ made_table level c false table.old }
{
    let spans = spans(level);
    let mut cut = [0.0f32; CUT];
    let by_both = Conic::new(c.p0, c.p1, c.p2, c.weight, Rule::BothAxes);
    let _ = conic_cut::chop_into_quads_pow2(&mut cut, by_both, level); // never refused: there is room at every level
    let mut rounded = [0u32; TABLE];
    store_tested(table, &mut rounded, &cut[0..4 * spans + 2], 2 * spans + 2)?;
    Ok(spans + 1)
}
