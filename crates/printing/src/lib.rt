// An answer as a line of output.
#![tactic(auto)]

ghost use Rattle.text.specs.Pages.{Room, Within};

use records::{
    Answer, Attrs, Controller, EventState, PlantOrder, Removed, SetpointChangeState, Setpoints,
    Settings, Snapshot,
};
use text::{Label, Page, Value};

// Two setpoints, the second after a slash.
fn setpoints(page: &mut Page, label: Label, s: Setpoints)
    requires { Room page.old 64 }
    ensures { Within page.old page.new 64 }
{
    page.field(label, s.heating);
    page.field(Label::Slash, s.cooling);
}

fn settings(page: &mut Page, s: Settings)
    requires { Room page.old 224 }
    ensures { Within page.old page.new 224 }
{
    page.field(Label::Heating, s.heating);
    page.field(Label::Cooling, s.cooling);
    page.field(Label::MinHeat, s.minheat);
    page.field(Label::MaxHeat, s.maxheat);
    page.field(Label::MinCool, s.mincool);
    page.field(Label::MaxCool, s.maxcool);
    page.field(Label::Mode, u64::from(s.mode));
}

fn attrs(page: &mut Page, s: Attrs)
    requires { Room page.old 256 }
    ensures { Within page.old page.new 256 }
{
    settings(page, s.settings);
    page.field(Label::Dirty, u64::from(s.dirty));
}

fn snapshot(page: &mut Page, s: Snapshot)
    requires { Room page.old 192 }
    ensures { Within page.old page.new 192 }
{
    page.field(Label::Shadow, s.temperature);
    let pair = Setpoints {
        heating: s.heating,
        cooling: s.cooling,
    };
    setpoints(page, Label::Slash, pair);
    page.field(Label::Slash, u64::from(s.mode));
    page.field(Label::Slash, u64::from(s.relays));
    page.field(Label::Slash, u64::from(s.runningmode));
}

fn event_state(page: &mut Page, s: EventState)
    requires { Room page.old 224 }
    ensures { Within page.old page.new 224 }
{
    match s.shadow {
        Some(n) => snapshot(page, n),
        None => page.field(Label::Shadow, Value::Absent),
    }
    page.field(Label::Last, s.last);
}

fn attributed(page: &mut Page, p: Option<Setpoints>)
    requires { Room page.old 64 }
    ensures { Within page.old page.new 64 }
{
    match p {
        Some(s) => setpoints(page, Label::Attributed, s),
        None => page.field(Label::Attributed, Value::Absent),
    }
}

fn change(page: &mut Page, s: SetpointChangeState)
    requires { Room page.old 192 }
    ensures { Within page.old page.new 192 }
{
    page.field(Label::Source, u64::from(s.source));
    page.field(Label::Amount, s.amount);
    page.field(Label::Timestamp, s.timestamp);
    attributed(page, s.attributed);
    page.field(Label::Armed, s.armed);
}

fn order(page: &mut Page, o: Option<PlantOrder>)
    requires { Room page.old 96 }
    ensures { Within page.old page.new 96 }
{
    match o {
        Some(p) => {
            page.field(Label::Order, u64::from(p.mode));
            let pair = Setpoints {
                heating: p.heating,
                cooling: p.cooling,
            };
            setpoints(page, Label::Slash, pair);
        }
        None => page.field(Label::Order, Value::Absent),
    }
}

fn record(page: &mut Page, r: Controller)
    requires { Room page.old 704 }
    ensures { Within page.old page.new 704 }
{
    attrs(page, r.attrs);
    page.field(Label::Pending, u64::from(r.pending));
    event_state(page, r.events);
    change(page, r.change);
}

// The answer of a call or an opening, without deadline, amounts removed and newline.
pub fn answer(page: &mut Page, a: &Answer)
    requires { Room page.old 2208 }
    ensures { Within page.old page.new 2208 }
{
    page.field(Label::Nothing, u64::from(a.number));
    record(page, a.rec);
    order(page, a.order);
    notice_lists::notices(page, &a.notices);
    event_lists::events(page, &a.events);
}

// The amounts that clamping removed. They end an answer's line, after a deadline.
pub fn removed(page: &mut Page, x: Removed)
    requires { Room page.old 64 }
    ensures { Within page.old page.new 64 }
{
    page.field(Label::Cut, x.heating);
    page.field(Label::Slash, x.cooling);
}
