// Reads a pad's file from standard input: a bridge makes a table, and each stroke after it is dated by that table.
#![tactic(auto)]

mod answer;

use answer::Pad;
use line_input::Line;
use std::io;
use std::io::{Input, Read};

// Shows each line of standard input, and what stands behind the last newline too, even where that is nothing. A proved loop has
// to end, and nothing says that the input does: its turns are counted by a number that no input uses up. The loop of `bridge`
// reads like this one: shared, it would ask of its caller that what it is handed may be called.
fn run(rt: &(impl Input + Print)) -> io::Result<()> {
    let mut pad = Pad::new();
    let mut input = rt.reader();
    let mut line = Line::new();
    let mut piece = [0u8; 4096];
    for _ in 0..u64::MAX {
        let n = input.read(&mut piece)?;
        if n == 0 {
            break;
        }
        for b in &piece[..n] {
            if *b == b'\n' {
                pad.show(rt, line.number, &line.kept)?;
                line.end();
            } else {
                line.push(*b);
            }
        }
    }
    pad.show(rt, line.number, &line.kept)
}

fn main(rt: HostRuntime) -> io::Result<()> {
    run(&rt)
}
