// The console's session: lines of text from an input, an answer a line to an output.
#![tactic(auto)]

mod feed;
mod replies;
mod serve;
mod session;

ghost use Rattle.sessions.specs.Sessions.{Placed};

pub use session::{Held, Session};
use std::io::{Read, Write};

// `line` lines are read. Of the next one `held` bytes are there, and of the page `filled` bytes are written.
// Lengths without their buffers, since `run` promises of both that none is left.
#[derive(Clone, Copy)]
pub struct Place {
    pub line: u64,
    pub held: usize,
    pub filled: usize,
    pub writable: bool,
}

// The whole of the input. At the end no part of a line is left unserved, and no part of an answer unwritten.
pub fn run<I: Read, O: Write>(input: &mut I, output: &mut O) -> Place
    ensures { Placed result 0 0 }
{
    let mut s = Session::new();
    s.read_all(input, output);
    s.serve_rest(output);
    s.flush(output);
    s.place()
}
