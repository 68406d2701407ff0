// A field of a line of output: a label and a value, written to a page.
#![tactic(auto)]

mod buffer;
mod labels;
mod lists;
mod values;

ghost use Rattle.std.specs.Prelude.{◌≡◌, ◌++◌};
ghost use Rattle.std.specs.Fmt.{signed_decimal};
ghost use Rattle.text.specs.Pages.{written, Room, Within};

pub use buffer::Buffer;
use itoa::Integer;
pub use labels::Label;
use units::Wide;
pub use values::Value;

// Of output, as much as is written at a time.
pub type Page = Buffer<65536>;

impl Page {
    fn label(&mut self, number: usize)
        requires { Room self.old 10 }
        ensures { Within self.old self.new 10 }
    {
        let from = labels::start(number);
        let entry = &labels::LABELS[from..from + labels::LONGEST];
        let n = entry
            .iter()
            .position(|b| *b == b'~')
            .unwrap_or(labels::LONGEST);
        self.extend_from_slice(&entry[..n]);
    }

    // Not by `write!`, which promises its text only where it succeeds, and never that it does.
    fn integer<I: Integer>(&mut self, n: I)
        requires { Room self.old I.MAX_STR_LEN }
        ensures within { Within self.old self.new I.MAX_STR_LEN }
        ensures written { written self.new ≡ written self.old ++ I.text n }
    {
        self.extend_from_slice(itoa::Buffer::new().format(n).as_bytes());
    }

    fn hex(&mut self, n: u64)
        requires { Room self.old 16 }
        ensures { Within self.old self.new 16 }
    {
        let mut digits = [0u8; 16];
        let k = io::hex(n, 2, &mut digits);
        self.extend_from_slice(&digits[..k]);
    }

    fn signed(&mut self, v: Wide)
        requires { Room self.old 21 }
        ensures within { Within self.old self.new 21 }
        ensures written { written self.new ≡ written self.old ++ signed_decimal v.0 }
    {
        self.integer(v.0);
    }

    fn value(&mut self, v: Value)
        requires { Room self.old 21 }
        ensures { Within self.old self.new 21 }
    {
        match v {
            Value::Empty => {}
            Value::Absent => self.extend_from_slice(b"-"),
            Value::Number(n) => self.integer(n),
            Value::Code(n) => self.hex(n),
            Value::Degrees(h) => self.signed(Wide::from(h)),
            Value::Difference(w) => self.signed(w),
        }
    }

    // A label or its number; past the last number there is none.
    pub fn field<L: Into<usize>, V: Into<Value>>(&mut self, label: L, value: V)
        requires { Room self.old 32 }
        ensures { Within self.old self.new 32 }
    {
        self.label(label.into());
        self.value(value.into());
    }
}
