// model/specs/Sweep: taking events.
#![tactic(auto)]

ghost use Rattle.std.specs.Prelude.{◌≡◌};
ghost use Rattle.sweep_take_events.specs.Parts.{packed_taken};
ghost use Rattle.records.specs.Records.{nothing_removed};
ghost use Rattle.model.specs.Sweep as spec;

use records::{Answer, Config, Controller, Events, Notices, Readings, Snapshot};

// What taking events leaves.
#[derive(Clone, Copy)]
pub struct Taken {
    pub rec: Controller,
    pub events: Events,
}

// Inlined, here and below: where it stands apart, the record is copied and nothing is known of the configuration.
#[tactic(auto, using(model::proofs::Packing::emit_none), unfolding(model::specs::Answers::packed_events))]
#[inline(always)]
fn take_since(cfg: Config, d: Readings, r: Controller, old: Snapshot) -> Taken
    ensures { result ≡ packed_taken (spec.taken_from cfg d r (Some old)) }
{
    let new = sweep_snapshots::snapshot(cfg, d, r);
    if sweep_snapshots::is_same_snapshot(old, new) {
        return Taken {
            rec: r,
            events: Events::none(),
        };
    }
    let last = r.events.last;
    Taken {
        rec: Controller {
            events: sweep_events::commit(cfg, old, new, last, d.clock),
            ..r
        },
        events: sweep_events::events_of(cfg, old, new, last, d.clock),
    }
}

// With no snapshot yet it starts, and gives no events.
#[tactic(auto, using(model::proofs::Packing::emit_none), unfolding(model::specs::Sweep::take_events, model::specs::Answers::packed_events))]
#[inline(always)]
pub fn take_events(cfg: Config, d: Readings, r: Controller) -> Taken
    ensures { result ≡ packed_taken (spec.take_events cfg d r) }
{
    match r.events.shadow {
        None => Taken {
            rec: sweep_snapshots::start(cfg, d, r),
            events: Events::none(),
        },
        Some(old) => take_since(cfg, d, r, old),
    }
}

pub fn answer_taken(t: Taken, n: Notices) -> Answer
    ensures { result ≡ record { number = 0; rec = t.rec; order = None; notices = n; events = t.events; deadline = None; removed = nothing_removed } }
{
    Answer {
        notices: n,
        events: t.events,
        ..answers::quiet_answer(Answer::DONE, t.rec)
    }
}
