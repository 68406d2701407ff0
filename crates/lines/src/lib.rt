// What a line of the console says.
#![tactic(auto)]

mod calls;
mod fields;
mod forms;
mod letters;
mod numbers;
mod values;

ghost use Rattle.std.specs.Prelude.{◌≡◌};
ghost use Rattle.lines.specs.Lines.{LineRead, unreadable};

use records::{Call, Config, Controller, Readings, Settings};
use words::BadWord;

#[derive(Clone, Copy)]
pub enum Line {
    // Empty or a comment: a line like others, which asks nothing.
    Nothing,
    Config(Config),
    Record(Controller),
    Open(Settings, Readings),
    Call(Call, Readings),
}

#[derive(Clone, Copy, PartialEq, Eq)]
pub struct Unreadable;

impl From<BadWord> for Unreadable {
    ghost from_gives = { λ _ e. e ≡ unreadable };

    fn from(_word: BadWord) -> Unreadable {
        Unreadable
    }
}

// What a line says, without its newline.
pub fn read(line: &[u8]) -> Result<Line, Unreadable>
    ensures { LineRead line.now result }
{
    match line {
        [] | [b'#', ..] => Ok(Line::Nothing),
        _ if 250 < line.len() => Err(Unreadable),
        _ => Ok(calls::line_of(&fields::fields_of(line)?)),
    }
}
