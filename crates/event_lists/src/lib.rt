// The events of an answer.
#![tactic(auto)]

ghost use Rattle.text.specs.Pages.{Room, Within};

use records::{Event, Events};
use text::{Label, Page, Value};
use units::Hundredths;

// An event of two numbers.
fn pair(page: &mut Page, event: Label, previous: u64, current: u64)
    requires { Room page.old 96 }
    ensures { Within page.old page.new 96 }
{
    page.field(event, previous);
    page.field(Label::Comma, current);
    page.field(Label::Close, Value::Empty);
}

fn reading(page: &mut Page, t: Option<Hundredths>)
    requires { Room page.old 64 }
    ensures { Within page.old page.new 64 }
{
    page.field(Label::LocalTemperatureChange, t);
    page.field(Label::Close, Value::Empty);
}

fn setpoint(page: &mut Page, side: u8, previous: Hundredths, current: Hundredths)
    requires { Room page.old 128 }
    ensures { Within page.old page.new 128 }
{
    page.field(Label::SetpointChange, u64::from(side));
    page.field(Label::Comma, previous);
    page.field(Label::Comma, current);
    page.field(Label::Close, Value::Empty);
}

fn event(page: &mut Page, e: Event)
    requires { Room page.old 128 }
    ensures { Within page.old page.new 128 }
{
    match e {
        Event::SystemModeChange(p, c) => {
            pair(page, Label::SystemModeChange, u64::from(p), u64::from(c))
        }
        Event::LocalTemperatureChange(t) => reading(page, t),
        Event::SetpointChange(side, p, c) => setpoint(page, side, p, c),
        Event::RunningStateChange(p, c) => {
            pair(page, Label::RunningStateChange, u64::from(p), u64::from(c))
        }
        Event::RunningModeChange(p, c) => {
            pair(page, Label::RunningModeChange, u64::from(p), u64::from(c))
        }
    }
}

// A place that is not taken is a dash.
fn listed(page: &mut Page, label: Label, e: Option<Event>)
    requires { Room page.old 160 }
    ensures { Within page.old page.new 160 }
{
    page.field(label, Value::Empty);
    match e {
        Some(e) => event(page, e),
        None => page.field(Label::Nothing, Value::Absent),
    }
}

pub fn events(page: &mut Page, n: &Events)
    requires { Room page.old 960 }
    ensures { Within page.old page.new 960 }
{
    let events = &n.items[..n.len.min(n.items.len())];
    page.list::<6, 160, _, _>(Label::Events, Label::Semicolon, events, listed);
}
