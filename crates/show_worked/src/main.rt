// The worked dump of document 01, case by case.
#![tactic(auto)]

mod blocked;
mod copied;
mod questions;

use std::io;

fn main(rt: HostRuntime) -> io::Result<()> {
    print::word(&rt, b"The worked dump of document 01\n")?;
    copied::show(&rt)?;
    blocked::show(&rt)?;
    questions::show(&rt)
}
