// The figures of conics.
use super::shown;
use super::shown::{Bits, Refused};
use conic::{Conic, Rule};
use std::io;

// x and y of each point: one bend, and one whose ys turn back.
const BEND: [f32; 6] = [0.0, 0.0, 4.0, 0.0, 4.0, 4.0];

const BACK: [f32; 6] = [0.0, 0.0, 0.0, 8.0, 0.0, 0.0];

fn yes(is: bool) -> &'static str {
    if is { "yes" } else { "no" }
}

fn between(rt: &impl Print, name: &str, a: f32, b: f32, c: f32) -> io::Result<()> {
    let product = yes(conic::between_product(a, b, c));
    let exact = yes(conic::between_exact(a, b, c));
    println!(rt; "between {name}: product {product}, exact {exact}")
}

// The level of the conic of weight 0 whose ys are 0, y, 0 and xs 0.
fn level(rt: &impl Print, name: &str, y: f32, tolerance: f32, ceiling: u32) -> io::Result<()> {
    let src = [0.0, 0.0, 0.0, y, 0.0, 0.0];
    let level = Conic::compute_quad_pow2_from(&src, 0.0, tolerance, ceiling);
    shown::answered(rt, name, level)
}

// The levels for a tolerance, by the crate's own ceiling, by that of a cut and by another.
fn levels(rt: &impl Print) -> io::Result<()> {
    let own = Conic::MAX_CONIC_TO_QUAD_POW2;
    level(rt, "level of 0, 8, 0 at 0.25", 8.0, 0.25, own)?;
    level(rt, "level of 0, 8, 0 at 4", 8.0, 4.0, own)?;
    level(rt, "level of 0, 128, 0 at 0.25", 128.0, 0.25, own)?;
    level(rt, "level of 0, 1024, 0 at 0.25", 1024.0, 0.25, own)?;
    let high = Conic::MAX_CUT_LEVEL;
    level(rt, "the same, ceiling 6", 1024.0, 0.25, high)?;
    level(rt, "level of 0, 8, 0 at 0.25, ceiling 6", 8.0, 0.25, high)?;
    level(
        rt,
        "level of 0, 1024, 0 at 0.25, ceiling 5",
        1024.0,
        0.25,
        5,
    )?;
    level(rt, "the same at -1, ceiling 5", 1024.0, -1.0, 5)
}

// The number of quads, and what `out` then holds.
fn cut(
    rt: &impl Print,
    name: &str,
    out: &mut [f32],
    rule: Rule,
    src: &[f32],
    weight: f32,
    level: u32,
) -> io::Result<()> {
    match conic_cut::chop_into_quads_pow2_from(out, src, weight, rule, level) {
        Ok(n) => {
            print!(rt; "{name}: {n}")?;
            for x in out.iter() {
                print!(rt; " {}", Bits(*x))?;
            }
            println!(rt)
        }
        Err(why) => println!(rt; "{name}: {}", Refused(why)),
    }
}

// How many quads the bend of weight 1 is cut into.
fn counted(rt: &impl Print, name: &str, level: u32) -> io::Result<()> {
    let mut out = [0.0f32; 258];
    let quads = conic_cut::chop_into_quads_pow2_from(&mut out, &BEND, 1.0, Rule::Product, level);
    shown::answered(rt, name, quads)
}

fn cuts(rt: &impl Print) -> io::Result<()> {
    let (crate_rule, exact, both) = (Rule::Product, Rule::Exact, Rule::BothAxes);
    let mut six = [0.0f32; 6];
    cut(rt, "weight 1, level 0", &mut six, crate_rule, &BEND, 1.0, 0)?;
    let mut nine = [0.0f32; 9];
    cut(
        rt,
        "nine numbers of room",
        &mut nine,
        crate_rule,
        &BEND,
        1.0,
        1,
    )?;
    let mut ten = [0.0f32; 10];
    cut(rt, "weight 1, level 1", &mut ten, crate_rule, &BEND, 1.0, 1)?;
    counted(rt, "quads at level 5", 5)?;
    counted(rt, "quads at level 6, in 258 numbers", 6)?;
    counted(rt, "quads at level 7", 7)?;
    let nan = 0.0 / 0.0;
    cut(rt, "NaN weight, exact", &mut ten, exact, &BEND, nan, 1)?;
    cut(rt, "NaN weight, both axes", &mut ten, both, &BEND, nan, 1)?;
    cut(rt, "ys 0, 8, 0", &mut ten, exact, &BACK, 1.0, 1)
}

pub fn show(rt: &impl Print) -> io::Result<()> {
    let low = 7.8886090522101180541e-31;
    between(rt, "0, 2^-100, 0", 0.0, low, 0.0)?;
    let high = 1.7014118346046923173e38;
    between(rt, "-2^127, 2^127, 2^127", -high, high, high)?;
    levels(rt)?;
    cuts(rt)
}
