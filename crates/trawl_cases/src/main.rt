// Tells of several piles, one after the other: arguments 1 and 2 name the first pile and its answers, 3 and 4 the next,
// and so on.
#![tactic(auto)]

use std::io;

fn main(rt: HostRuntime) -> io::Result<()> {
    // The program's own name is counted too, and falls away in the division.
    let pairs = console::argument_count(&rt) / 2;
    // By number, as arguments are read.
    for k in 0..pairs {
        console::tell_named(&rt, 2 * k + 1, 2 * k + 2)?;
    }
    Ok(())
}
