// Bytes in fixed memory, filled from the front. Unlike `records::FixedList` it is never longer than its room, and written to where it stands.
ghost use Rattle.std.specs.Prelude.{◌≤◌};

// The first `filled` bytes are written.
#[derive(Clone, Copy)]
pub struct Buffer<const MOST: usize> {
    pub bytes: [u8; MOST],
    pub filled: usize,
    pub ghost within: { filled ≤ MOST },
}

impl<const MOST: usize> Buffer<MOST> {
    ghost use Rattle.std.specs.Prelude.{◌≡◌, ◌+◌, ◌++◌, length};
    ghost use Rattle.text.specs.Pages.{written};

    pub fn new() -> Self
        ensures { result.filled ≡ 0 }
    {
        Buffer {
            bytes: [0; MOST],
            filled: 0,
        }
    }

    // What is written.
    pub fn as_slice(&self) -> &[u8]
        ensures { result.now ≡ written self.now }
    {
        &self.bytes[..self.filled]
    }

    pub fn extend_from_slice(&mut self, more: &[u8])
        requires { self.old.filled + length more.now ≤ MOST }
        ensures filled { self.new.filled ≡ self.old.filled + length more.now }
        ensures written { written self.new ≡ written self.old ++ more.now }
    {
        let end = self.filled + more.len();
        let bytes = &mut self.bytes[..];
        bytes[self.filled..end].copy_from_slice(more);
        self.filled = end;
    }
}
