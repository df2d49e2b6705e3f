// What is printed of a line.
use answers::Numbered;
use bridge_lines::{BadBridge, Bridge};
use conic::Conic;
use std::io;

// Of a cut at the highest level: its quads, its points, and the numbers that these are.
const QUADS: usize = 1 << Conic::MAX_CUT_LEVEL;

const POINTS: usize = 2 * QUADS + 1;

const ROOM: usize = 2 * POINTS;

// Writes v without the blanks in front of it.
fn coordinate(rt: &impl Print, v: f32) -> io::Result<()> {
    rt.write_all(bridge_text::text(v).trim_ascii_start())
}

// Writes points, a line for each; a coordinate is bytes, and no text to be laid out.
fn points(rt: &impl Print, numbers: &[f32]) -> io::Result<()> {
    for [x, y] in numbers.as_chunks::<2>().0 {
        coordinate(rt, *x)?;
        rt.print(" ")?;
        coordinate(rt, *y)?;
        println!(rt)?;
    }
    Ok(())
}

// Writes a note where no promise keeps an axis in order: where the middle b is beyond the ends.
fn note(rt: &impl Print, line: u64, axis: &str, a: f32, b: f32, c: f32) -> io::Result<()> {
    if conic::between_exact(a, b, c) {
        return Ok(());
    }
    println!(rt;
        "line {line}: note: the {axis}s may turn back, since the middle {axis} is not between the end {axis}s"
    )
}

// Writes the points of a cut, and before them what no promise keeps.
fn written(rt: &impl Print, line: u64, c: Conic, numbers: &[f32]) -> io::Result<()> {
    println!(rt; "{} points", numbers.len() / 2)?;
    note(rt, line, "y", c.p0.y, c.p1.y, c.p2.y)?;
    note(rt, line, "x", c.p0.x, c.p1.x, c.p2.x)?;
    points(rt, numbers)
}

// Cuts a bridge by its rule, that of both axes.
fn cut(rt: &impl Print, line: u64, b: Bridge) -> io::Result<()> {
    let mut out = [0.0f32; ROOM];
    match conic_cut::chop_into_quads_pow2(&mut out, b.conic, b.level) {
        Ok(quads) => written(rt, line, b.conic, &out[..4 * quads.min(QUADS) + 2]),
        Err(why) => println!(rt; "refused {}", why.number()),
    }
}

// Writes what the line of this number comes to.
pub fn show(rt: &impl Print, number: u64, line: &[u8]) -> io::Result<()> {
    match bridge_lines::read(line) {
        Ok(None) => Ok(()),
        Ok(Some(b)) => {
            print!(rt; "line {number}: ")?;
            cut(rt, number, b)
        }
        Err(bad) => println!(rt; "line {number}: {}", BadBridge(bad)),
    }
}
