// The input, taken apart into lines.
ghost use Rattle.std.specs.Prelude.{◌≡◌};

use crate::Session;
use std::io::{Read, Write};

impl Session {
    // As many bytes as there is room for, after those that are held.
    fn gather(&mut self, part: &[u8]) {
        let room = self.held.bytes.len() - self.held.filled;
        self.held.extend_from_slice(&part[..part.len().min(room)]);
    }

    // Every line that ends in the chunk is served, and what follows the last newline is held.
    fn feed<O: Write>(&mut self, chunk: &[u8], output: &mut O) {
        for piece in chunk.split_inclusive(|b| *b == b'\n') {
            match piece {
                [line @ .., b'\n'] => {
                    self.gather(line);
                    self.serve(output);
                }
                _ => self.gather(piece),
            }
        }
    }

    // One read after another, until nothing is read or nothing can be written. The answers of a read go out before the next may wait.
    // A read that fails counts as the end of the input. Nothing says that the input ends, so the reads are as many as no run uses up.
    pub(crate) fn read_all<I: Read, O: Write>(&mut self, input: &mut I, output: &mut O) {
        let mut chunk = [0u8; 65536];
        for _ in 0..u64::MAX {
            let n = input.read(&mut chunk).unwrap_or(0);
            self.feed(&chunk[..n], output);
            self.flush(output);
            if n == 0 || !self.writable {
                return;
            }
        }
    }

    // What is held once there is no more to read is the last line.
    pub(crate) fn serve_rest<O: Write>(&mut self, output: &mut O)
        ensures { self.new.held.filled ≡ 0 }
    {
        if 0 < self.held.filled {
            self.serve(output);
        }
    }
}
