// model/specs/Messages and Removed: out-of-band limits.
#![tactic(auto)]

ghost use Rattle.std.specs.Prelude.{◌≡◌};
ghost use Rattle.model.specs.Removed.{repair_removed};
ghost use Rattle.model.specs.Messages as spec;
ghost use Rattle.messages_taken.specs.Taken.{Takes};

use messages_taken::Taken;
use records::{Attrs, Config, pending_mask};
use units::Hundredths;

// The four limits in one store. They stand as in the message, which is their only maker: a struct would be made there and read here once.
#[tactic(auto, unfolding(model::specs::Messages::limits_taken))]
fn take_limits(
    cfg: Config,
    a: Attrs,
    minh: Hundredths,
    maxh: Hundredths,
    minc: Hundredths,
    maxc: Hundredths,
) -> Attrs
    ensures { result ≡ spec.limits_taken cfg a minh maxh minc maxc }
{
    let mut s = a.settings;
    s.minheat = units_ranges::clamp(minh.into(), cfg.absminheat, cfg.absmaxheat).given;
    s.maxheat = units_ranges::clamp(maxh.into(), cfg.absminheat, cfg.absmaxheat).given;
    s.mincool = units_ranges::clamp(minc.into(), cfg.absmincool, cfg.absmaxcool).given;
    s.maxcool = units_ranges::clamp(maxc.into(), cfg.absmincool, cfg.absmaxcool).given;
    records::update_attrs(a, s)
}

// The new limits may cut across the setpoints, so the settings are repaired. The message asks for a sweep, whether its plant order does or not.
#[tactic(auto, using(crate::proofs::Bits::set_again), unfolding(model::specs::Messages::limits_message, model::specs::Orders::ask_sweep))]
pub fn limits_message(
    cfg: Config,
    a: Attrs,
    minh: Hundredths,
    maxh: Hundredths,
    minc: Hundredths,
    maxc: Hundredths,
) -> Taken
    ensures { Takes a (λ r. spec.limits_message cfg r minh maxh minc maxc) (repair_removed cfg (spec.limits_taken cfg a minh maxh minc maxc)) result }
{
    let f = repair::repair(cfg, take_limits(cfg, a, minh, maxh, minc, maxc));
    Taken {
        order: answers::order_of(f.attrs.settings),
        ..messages_taken::take(f.attrs, pending_mask::LIMITS, f.removed)
    }
}
