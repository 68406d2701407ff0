// The console: one controller, driven by lines of text on standard input, an answer a line on standard output.
// `replay` is the same over another input: a program is a crate with a `main` of its own.
#![tactic(auto)]

use std::io;

fn main(rt: HostRuntime) {
    let mut input = rt.reader();
    let mut output = io::writer(&rt);
    sessions::run(&mut input, &mut output);
}
