// Reads bridges from standard input, one a line, cuts each by the rule of both axes and prints the points of its quads, with
// a note where they may turn back.
#![tactic(auto)]

mod answer;

use line_input::Line;
use std::io;
use std::io::{Input, Read};

// Shows each line of standard input, and what stands behind the last newline too, even where that is nothing. A proved loop has
// to end, and nothing says that the input does: its turns are counted by a number that no input uses up. The loop of `dates`
// reads like this one: shared, it would ask of its caller that what it is handed may be called.
fn run(rt: &(impl Input + Print)) -> io::Result<()> {
    let mut input = rt.reader();
    let mut line = Line::new();
    let mut piece = [0u8; 4096];
    for _ in 0..u64::MAX {
        let n = input.read(&mut piece)?;
        if n == 0 {
            break;
        }
        for b in &piece[..n] {
            if *b == b'\n' {
                answer::show(rt, line.number, &line.kept)?;
                line.end();
            } else {
                line.push(*b);
            }
        }
    }
    answer::show(rt, line.number, &line.kept)
}

fn main(rt: HostRuntime) -> io::Result<()> {
    run(&rt)
}
