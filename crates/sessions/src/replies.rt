// What a line does to the controller, and what is written of it.
ghost use Rattle.std.specs.Prelude.{◌≡◌};
ghost use Rattle.text.specs.Pages.{Room, Within};
ghost use Rattle.sessions.specs.Sessions.{configured, answered};

use lines::{Line, Unreadable};
use records::{Answer, Call, Config, Controller};
use text::{Label, Page, Value};

pub(crate) fn config_after(c: Config, line: Result<Line, Unreadable>) -> Config
    ensures { result ≡ configured c line }
{
    match line {
        Ok(Line::Config(given)) => given,
        _ => c,
    }
}

// Of a line that asks nothing of the controller, a quiet answer with the record that it leaves.
// A match and no closure: each kind of line has values of its own.
pub(crate) fn answer_to(c: Config, r: Controller, line: Result<Line, Unreadable>) -> Answer
    ensures { result ≡ answered c r line }
{
    match line {
        Ok(Line::Open(settings, _)) => opening::open(c, settings),
        Ok(Line::Call(k, d)) => controller::step(c, r, d, k),
        Ok(Line::Record(given)) => answers::quiet_answer(Answer::DONE, given),
        _ => answers::quiet_answer(Answer::DONE, r),
    }
}

// A deadline query has its deadline besides.
fn write_answer(page: &mut Page, a: &Answer, with_deadline: bool)
    requires { Room page.old 2336 }
    ensures { Within page.old page.new 2336 }
{
    printing::answer(page, a);
    if with_deadline {
        page.field(Label::Deadline, a.deadline);
    }
    printing::removed(page, a.removed);
    page.field(Label::Newline, Value::Empty);
}

// A line that cannot be read answers `error` and its number.
fn write_error(page: &mut Page, line: u64)
    requires { Room page.old 64 }
    ensures { Within page.old page.new 64 }
{
    page.field(Label::Error, line);
    page.field(Label::Newline, Value::Empty);
}

pub(crate) fn write_reply(page: &mut Page, number: u64, line: Result<Line, Unreadable>, a: &Answer)
    requires { Room page.old 2336 }
    ensures { Within page.old page.new 2336 }
{
    match line {
        Ok(Line::Nothing) => {}
        Err(_) => write_error(page, number),
        Ok(Line::Open(_, _)) => write_answer(page, a, false),
        Ok(Line::Call(k, _)) => write_answer(page, a, matches!(k, Call::Deadline)),
        Ok(_) => page.field(Label::Ok, Value::Empty),
    }
}
