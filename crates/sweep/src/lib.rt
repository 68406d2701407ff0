// model/specs/Sweep: row 27, timer, sweep, and start as a call.
#![tactic(auto)]

ghost use Rattle.std.specs.Prelude.{◌≡◌, []};
ghost use Rattle.model.specs.Answers.{answer};
ghost use Rattle.model.specs.Sweep as spec;
ghost use Rattle.sweep.specs.Parts.{swept_with};

use records::{Answer, Config, Controller, Notices, PendingBit, Readings, Refusal};

// Row 27: an event keeps its clock, and the deadline adds 60,000 ms to it.
fn is_late(d: Readings) -> bool
    ensures { result ≡ (spec.late d).cause }
{
    Controller::LAST_CLOCK < d.clock
}

// Events only; it leaves pending alone.
#[tactic(auto, using(model::proofs::Packing::push_none), unfolding(model::specs::Sweep::timer, model::specs::Refusals::unless, records::specs::Refusals::number, model::specs::Answers::packed))]
pub fn timer(cfg: Config, r: Controller, d: Readings) -> Answer
    ensures { result ≡ answer (spec.timer cfg r d) }
{
    if is_late(d) {
        return answers::refuse(Refusal::ClockTooLate, r);
    }
    sweep_take_events::answer_taken(sweep_take_events::take_events(cfg, d, r), Notices::none())
}

#[tactic(auto, unfolding(model::specs::Sweep::sweep_events))]
fn sweep_events(cfg: Config, d: Readings, n: Notices, r: Controller) -> Answer
    ensures { result ≡ swept_with n (spec.sweep_events cfg d [] r) }
{
    let a = attribution::arm_clock(cfg, d, r);
    let s = sweep_local_changes::attribute_local_setpoint_change(cfg, d, a, n);
    sweep_take_events::answer_taken(sweep_take_events::take_events(cfg, d, s.rec), s.notices)
}

// With nothing pending it changes nothing.
#[tactic(auto, using(model::proofs::Packing::push_all_append, model::proofs::Packing::emit_none), unfolding(model::specs::Sweep::swept, model::specs::Sweep::sweep_events, model::specs::Answers::packed, model::specs::Answers::packed_events))]
fn sweep_pending(cfg: Config, d: Readings, r: Controller) -> Answer
    ensures { result ≡ answer (spec.swept cfg d r) }
{
    if r.pending == 0 {
        return answers::quiet_answer(Answer::DONE, r);
    }
    let n = sweep_notices::notify_pending(cfg, r.pending);
    let q = Controller { pending: 0, ..r };
    if sweep_notices::is_pending(r.pending, PendingBit::EventSweep as u16) {
        return sweep_events(cfg, d, n, q);
    }
    Answer {
        notices: n,
        ..answers::quiet_answer(Answer::DONE, q)
    }
}

#[tactic(auto, unfolding(model::specs::Sweep::sweep, model::specs::Refusals::unless, records::specs::Refusals::number))]
pub fn sweep(cfg: Config, r: Controller, d: Readings) -> Answer
    ensures { result ≡ answer (spec.sweep cfg r d) }
{
    if is_late(d) {
        return answers::refuse(Refusal::ClockTooLate, r);
    }
    sweep_pending(cfg, d, r)
}

#[tactic(auto, unfolding(model::specs::Sweep::seed_events))]
pub fn seed_events(cfg: Config, r: Controller, d: Readings) -> Answer
    ensures { result ≡ answer (spec.seed_events cfg r d) }
{
    answers::quiet_answer(Answer::DONE, sweep_snapshots::start(cfg, d, r))
}
