// The program: tells of the pile that the first argument names, with the answers that the second names. Where there is
// no second, our own Ed25519 verifies the signatures.
#![tactic(auto)]

use std::io;

fn main(rt: HostRuntime) -> io::Result<()> {
    // The program's own name is counted too.
    if console::argument_count(&rt) == 2 {
        console::tell_alone(&rt, 1)
    } else {
        console::tell_named(&rt, 1, 2)
    }
}
