// Runs the unions of the source documents, and two that are near at hand to get wrong, through the library, writes them, and prints a line
// for each call. What it must print is in `stdout`, and was not made with the library.
#![tactic(auto)]

mod source003;
mod source004;
mod traps;

use std::io;

fn main(rt: HostRuntime) -> io::Result<()> {
    source003::run(&rt)?;
    source004::run(&rt)?;
    traps::run(&rt)
}
