// model/specs/Messages and Removed: out-of-band messages. Each takes the settings and gives those it leaves, the pending bits it sets and the amounts it removes.
#![tactic(auto)]

ghost use Rattle.std.specs.Prelude.{◌≡◌};
ghost use Rattle.model.specs.Answers.{answer_with};
ghost use Rattle.model.specs.Removed.{message_removed};
ghost use Rattle.model.specs.Messages as spec;
ghost use Rattle.messages_taken.specs.Taken.{Takes};

use messages_taken::Taken;
use records::{Answer, Attrs, Config, Controller, OutOfBandMessage, Removed, pending_mask};

// A message for each, as the paper has them: a closure would keep the message from the contract.
fn take_message(cfg: Config, a: Attrs, m: OutOfBandMessage) -> Taken
    ensures { Takes a (λ r. spec.out_of_band_message cfg r m) (message_removed cfg a m) result }
{
    match m {
        OutOfBandMessage::LocalTemperature => messages_taken::take(
            a,
            pending_mask::LOCAL_TEMPERATURE,
            Removed::NOTHING,
        ),
        OutOfBandMessage::RunningState => messages_taken::take(
            a,
            pending_mask::RUNNING_STATE,
            Removed::NOTHING,
        ),
        OutOfBandMessage::Update => messages_taken::take(a, pending_mask::UPDATE, Removed::NOTHING),
        OutOfBandMessage::OccupiedHeatingSetpoint(v) => messages_settings::heating_message(
            cfg, a, v,
        ),
        OutOfBandMessage::OccupiedCoolingSetpoint(v) => messages_settings::cooling_message(
            cfg, a, v,
        ),
        OutOfBandMessage::SystemMode(v) => messages_settings::mode_message(cfg, a, v),
        OutOfBandMessage::SetpointLimits(minh, maxh, minc, maxc) => messages_limits::limits_message(
            cfg, a, minh, maxh, minc, maxc,
        ),
    }
}

// The settings go into the record, the bits to those that are pending. A refused message has no bits, and the settings as they were.
pub fn out_of_band_message(cfg: Config, r: Controller, m: OutOfBandMessage) -> Answer
    ensures { result ≡ answer_with (spec.out_of_band_message cfg r m) (message_removed cfg r.attrs m) }
{
    let t = take_message(cfg, r.attrs, m);
    let mut q = r;
    q.attrs = t.attrs;
    q.pending |= t.bits;
    Answer {
        order: t.order,
        removed: t.removed,
        ..answers::quiet_answer(t.number, q)
    }
}
