// The words of a line, held to its form.
ghost use Rattle.std.specs.Prelude.{◌≡◌};
ghost use Rattle.lines.specs.Numbers.{number_at};

use crate::forms::{Form, Letters, NUMBERS, READINGS};
use crate::{Unreadable, forms, letters, numbers};
use words::Number;

// The words after the first, each at its letter's place, and none where there is no word. The next word's place is `next`,
// which is no length: it leaves out the places before the readings.
#[derive(Clone, Copy)]
pub struct Fields {
    pub form: Form,
    pub letters: Letters,
    pub slots: [Option<Number>; NUMBERS],
    pub next: usize,
}

impl Fields {
    // One word more.
    fn push(&mut self, word: &[u8]) -> Result<(), Unreadable> {
        let i = self.next;
        let letter = *self.letters.get(i).ok_or(Unreadable)?;
        let field = words::field_of(word)?;
        if !letters::fits(letter, field) {
            return Err(Unreadable);
        }
        self.slots[i] = numbers::number_of(field);
        self.next = if letter == b'@' { READINGS } else { i + 1 };
        Ok(())
    }

    // Whether no word more is needed. Of the attributed pair both numbers are there, or neither.
    fn is_whole(&self) -> bool {
        let letter = self.letters.get(self.next).copied().unwrap_or(b'.');
        letters::is_end(letter) & (self.at(12).is_some() == self.at(13).is_some())
    }

    #[tactic(auto, unfolding(crate::specs::Numbers::number_at))]
    pub(crate) fn at(&self, i: usize) -> Option<Number>
        ensures { result ≡ number_at self.now i }
    {
        self.slots.get(i).copied().flatten()
    }
}

// A blank stands before each word after the first.
pub(crate) fn fields_of(line: &[u8]) -> Result<Fields, Unreadable> {
    let mut words = line.split(|b| *b == b' ');
    let first = words.next().ok_or(Unreadable)?;
    let (form, letters) = forms::form_of(first).ok_or(Unreadable)?;
    let mut f = Fields {
        form,
        letters,
        slots: [None; NUMBERS],
        next: 0,
    };
    for word in words {
        f.push(word)?;
    }
    if f.is_whole() {
        return Ok(f);
    }
    Err(Unreadable)
}
