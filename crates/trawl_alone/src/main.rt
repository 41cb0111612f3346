// Tells of several piles, one after the other, each alone: every argument names one.
#![tactic(auto)]

use std::io;

fn main(rt: HostRuntime) -> io::Result<()> {
    let n = console::argument_count(&rt);
    // By number, as arguments are read; 0 is the program's own name.
    for k in 1..n {
        console::tell_alone(&rt, k)?;
    }
    Ok(())
}
