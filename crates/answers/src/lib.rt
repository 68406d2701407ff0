// model/specs/Answers and Orders: notices and events as lists in fixed memory; the plant order, and the sweep it asks for.
#![tactic(auto)]

ghost use Rattle.std.specs.Prelude.{◌≡◌};
ghost use Rattle.records.specs.Refusals.{number};
ghost use Rattle.model.specs.Answers.{only_if, push as pushed, push_all, answer, quiet};
ghost use Rattle.records.specs.FixedLists.{pushed as slotted};
ghost use Rattle.model.specs.Served.{noticed, emits_any};
ghost use Rattle.model.specs.Orders.{order_of, ask_sweep};

use records::{
    Answer, Config, Controller, Event, Events, Notices, PlantOrder, Refusal, Removed, Settings,
    pending_mask,
};

// A full list is left alone. No call gives more than it holds, so nothing is lost: law NothingLost of model.
#[tactic(auto, unfolding(model::specs::Answers::push, records::specs::FixedLists::pushed))]
pub fn push(n: Notices, code: u16) -> Notices
    ensures { result ≡ pushed n code }
{
    n.push(code)
}

// An event, or a slot with none.
#[tactic(auto, unfolding(records::specs::FixedLists::pushed))]
pub fn emit(es: Events, e: Option<Event>) -> Events
    ensures { result ≡ slotted 6 es e }
{
    es.push(e)
}

// A notice, if its attribute is served.
#[tactic(auto, unfolding(model::specs::Answers::only_if, model::specs::Answers::push_all))]
pub fn notify(cfg: Config, n: Notices, code: u16) -> Notices
    ensures { result ≡ push_all n (noticed cfg code) }
{
    if served::serves(cfg, code) {
        return push(n, code);
    }
    n
}

#[tactic(auto, unfolding(model::specs::Answers::only_if, model::specs::Answers::push_all))]
pub fn notify_if(cfg: Config, n: Notices, t: bool, code: u16) -> Notices
    ensures { result ≡ push_all n (only_if t (noticed cfg code)) }
{
    if t {
        return notify(cfg, n, code);
    }
    n
}

// A number and a record, and nothing else.
#[tactic(auto, unfolding(model::specs::Answers::packed, model::specs::Answers::push_all, model::specs::Answers::packed_events, model::specs::Answers::emit_all))]
pub fn quiet_answer(number: u8, r: Controller) -> Answer
    ensures { result ≡ answer (quiet number r) }
{
    Answer {
        number: number,
        rec: r,
        order: None,
        notices: Notices::none(),
        events: Events::none(),
        deadline: None,
        removed: Removed::NOTHING,
    }
}

// The record is given back, and nothing else.
pub fn refuse(refusal: Refusal, r: Controller) -> Answer
    ensures { result ≡ answer (quiet (number refusal) r) }
{
    quiet_answer(refusal.into(), r)
}

// The definition's type: an answer may have none.
pub fn order_of(s: Settings) -> Option<PlantOrder>
    ensures { result ≡ order_of s }
{
    Some(PlantOrder {
        mode: s.mode,
        heating: s.heating,
        cooling: s.cooling,
    })
}

#[tactic(auto, unfolding(model::specs::Served::emits_any))]
fn emits_any(cfg: Config) -> bool
    ensures { result ≡ emits_any cfg }
{
    cfg.events != 0
}

// Bit 9, if any event is served.
#[tactic(auto, unfolding(model::specs::Orders::ask_sweep))]
pub fn ask_sweep(cfg: Config, r: Controller) -> Controller
    ensures { result ≡ ask_sweep cfg r }
{
    if emits_any(cfg) {
        return Controller {
            pending: r.pending | pending_mask::EVENT_SWEEP,
            ..r
        };
    }
    r
}
