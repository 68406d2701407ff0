// model/specs/Sweep: the deadline query.
#![tactic(auto)]

ghost use Rattle.std.specs.Prelude.{◌≡◌, true};
ghost use Rattle.model.specs.Answers.{answer};
ghost use Rattle.model.specs.Sound.{sound_last};
ghost use Rattle.model.specs.Sweep as spec;

use records::{Answer, Config, Controller, EventId, Readings, Snapshot};

fn is_waiting(cfg: Config, d: Readings, s: Option<Snapshot>) -> bool
    ensures { result ≡ spec.waiting cfg d s }
{
    s.is_some_and(|old| {
        let now = temperature::reported_local_temperature(cfg, d.temperature);
        let emits = served::emits(cfg, EventId::LocalTemperatureChange as u16);
        let significant = temperature::local_temperature_change_significant(
            old.temperature,
            now,
            cfg.delta,
        );
        emits && significant
    })
}

// Row 28 leaves room for the sum.
fn deadline_after(waiting: bool, last: Option<u64>) -> Option<u64>
    requires { sound_last last ≡ true }
    ensures { result ≡ spec.deadline_after waiting last }
{
    if waiting {
        return last.map(|t| t + Controller::EVENT_INTERVAL);
    }
    None
}

// The deadline of a temperature event that the interval holds back.
// It is no entry for others: `step` alone calls it, on a record that has passed row 28.
#[tactic(auto, unfolding(model::specs::Sweep::deadline, model::specs::Sweep::deferred_deadline))]
pub fn deferred_local_temperature_deadline(cfg: Config, r: Controller, d: Readings) -> Answer
    requires { sound_last r.events.last ≡ true }
    ensures { result ≡ answer (spec.deadline cfg r d) }
{
    let waiting = is_waiting(cfg, d, r.events.shadow);
    Answer {
        deadline: deadline_after(waiting, r.events.last),
        ..answers::quiet_answer(Answer::DONE, r)
    }
}
