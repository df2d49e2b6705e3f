// Prints the figures of docs/RULES.md, "Figures", one to a line: what is asked, then the answer.
#![tactic(auto)]

mod conics;
mod curves;
mod dates;
mod ground;
mod shown;
mod transforms;

use std::io;

fn main(rt: HostRuntime) -> io::Result<()> {
    ground::show(&rt)?;
    curves::show(&rt)?;
    conics::show(&rt)?;
    dates::show(&rt)?;
    transforms::show(&rt)
}
