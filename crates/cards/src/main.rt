// Runs cards K9 to K12 of 01 through the library, writes the unions of K1, K3, K5 and K6, and prints a line for each call. What it must
// print is in `stdout`, and was not made with the library.
#![tactic(auto)]

mod k1;
mod ours;

use std::io;

fn main(rt: HostRuntime) -> io::Result<()> {
    k1::run(&rt)?;
    ours::run(&rt)
}
