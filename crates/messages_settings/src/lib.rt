// model/specs/Messages and Removed: an out-of-band setpoint or mode.
#![tactic(auto)]

mod side;

ghost use Rattle.std.specs.Prelude.{◌≡◌, cond};
ghost use Rattle.units.specs.Units.{widened, clamped, amount_removed};
ghost use Rattle.records.specs.Records.{updated, with_attrs, zero_wide, nothing_removed};
ghost use Rattle.model.specs.Answers.{quiet};
ghost use Rattle.model.specs.Removed.{heating_alone, cooling_alone, heating_removed, cooling_removed};
ghost use Rattle.model.specs.Messages as spec;
ghost use Rattle.messages_taken.specs.Taken.{Takes};

use limits::{Cooling, Heating};
use messages_taken::Taken;
use records::{Attrs, Config, Refusal, Removed, pending_mask};
use side::MessageSide;
use units::{Hundredths, Wide};

// A side that is not served has no amount, though its setpoint is clamped all the same.
fn setpoint_message<S: MessageSide>(cfg: Config, a: Attrs, v: Hundredths) -> Taken
    ensures { let least = S.least cfg a.settings in
        let greatest = S.greatest cfg a.settings in
        Takes a
        (λ r. quiet 0 (spec.raise_bits (with_attrs r (updated a (S.storing a.settings (clamped (widened v) least greatest)))) S.mask))
        (S.alone (cond (S.present cfg) (amount_removed (widened v) least greatest) zero_wide))
        result }
{
    let c = limits::clamp_setpoint::<S>(cfg, a.settings, v.into());
    let b = records::update_attrs(a, S::with_setpoint(a.settings, c.given));
    let amount = if S::is_served(cfg) {
        c.removed
    } else {
        Wide::ZERO
    };
    messages_taken::take(b, S::pending_mask(), S::removed_alone(amount))
}

// The two messages, under the definitions' names.
#[tactic(auto, unfolding(model::specs::Messages::heating_message, model::specs::Removed::heating_removed, model::specs::Limits::clamp_heat_setpoint, model::specs::Limits::heat_removed))]
pub fn heating_message(cfg: Config, a: Attrs, v: Hundredths) -> Taken
    ensures { Takes a (λ r. spec.heating_message cfg r v) (heating_alone (heating_removed cfg a.settings v)) result }
{
    setpoint_message::<Heating>(cfg, a, v)
}

#[tactic(auto, unfolding(model::specs::Messages::cooling_message, model::specs::Removed::cooling_removed, model::specs::Limits::clamp_cool_setpoint, model::specs::Limits::cool_removed))]
pub fn cooling_message(cfg: Config, a: Attrs, v: Hundredths) -> Taken
    ensures { Takes a (λ r. spec.cooling_message cfg r v) (cooling_alone (cooling_removed cfg a.settings v)) result }
{
    setpoint_message::<Cooling>(cfg, a, v)
}

#[tactic(auto, using(crate::proofs::Bits::no_bits), unfolding(model::specs::Messages::mode_message, model::specs::Refusals::unless, records::specs::Refusals::number))]
pub fn mode_message(cfg: Config, a: Attrs, v: u8) -> Taken
    ensures { Takes a (λ r. spec.mode_message cfg r v) nothing_removed result }
{
    if !modes::is_supported_system_mode(cfg, v) {
        return messages_taken::quiet_taken(Refusal::UnsupportedMode.into(), a, 0, Removed::NOTHING);
    }
    let mut s = a.settings;
    s.mode = v;
    let b = records::update_attrs(a, s);
    messages_taken::take(b, pending_mask::SYSTEM_MODE, Removed::NOTHING)
}
