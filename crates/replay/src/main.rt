// The Rust's own answers, asked again: the console's session over a stored list of calls. `stdout` is what the oracle answered, or the port's answer
// where `stdin` names a case of C-14 or C-20, each with the amounts cut off (C-12) by oracle/removed.py.
#![tactic(auto)]

use std::io;

fn main(rt: HostRuntime) {
    let mut input = rt.reader();
    let mut output = io::writer(&rt);
    sessions::run(&mut input, &mut output);
}
