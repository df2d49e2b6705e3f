// Replays a stored list of the original's answers through the C face: each exported call is made again on the same
// input, with the same contents in lent memory, and what it gives is held to what the original gave. Prints, for each
// named part of the list, how many of how many were the same.
#![tactic(auto)]

mod calls;
mod of_arrays;
mod of_buffers;
mod of_conics;
mod of_ground;
mod of_transforms;
mod record;
mod sum;
mod tally;

use std::io;

fn main(rt: HostRuntime) -> io::Result<()> {
    tally::run(&rt)
}
