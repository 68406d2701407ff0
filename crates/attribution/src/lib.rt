// model/specs/Attribution: recording, arming, and the claimed pair.
#![tactic(auto)]

ghost use Rattle.std.specs.Prelude.{◌≡◌};
ghost use Rattle.model.specs.Attribution.{stamp as stamp_of, recorded, with_attributed, armed_clock, served_setpoints, claim_setpoints};

use records::{
    AttributeId, Config, Controller, Readings, SetpointChangeState, Setpoints, Settings,
};
use units::Hundredths;

// The hook's second, else the armed one, else 0.
fn stamp(hook: Option<u32>, armed: Option<u32>) -> u32
    ensures { result ≡ stamp_of hook armed }
{
    hook.or(armed).unwrap_or(0)
}

// Recording always empties the armed clock.
#[tactic(auto, unfolding(model::specs::Attribution::recorded))]
pub fn record(
    c: SetpointChangeState,
    source: u8,
    amount: Hundredths,
    hook: Option<u32>,
) -> SetpointChangeState
    ensures { result ≡ recorded c source amount hook }
{
    SetpointChangeState {
        source: source,
        amount: Some(amount),
        timestamp: stamp(hook, c.armed),
        armed: None,
        ..c
    }
}

pub fn attribute(c: SetpointChangeState, claimed: Option<Setpoints>) -> SetpointChangeState
    ensures { result ≡ with_attributed c claimed }
{
    SetpointChangeState {
        attributed: claimed,
        ..c
    }
}

// It acts only if the timestamp attribute is served. Configuration, readings and record stay apart, as in the
// definitions: the record alone changes.
#[tactic(auto, unfolding(model::specs::Attribution::armed_clock))]
pub fn arm_clock(cfg: Config, d: Readings, r: Controller) -> Controller
    ensures { result ≡ armed_clock cfg d r }
{
    if served::serves(cfg, AttributeId::SetpointChangeSourceTimestamp as u16) {
        return Controller {
            change: SetpointChangeState {
                armed: d.node,
                ..r.change
            },
            ..r
        };
    }
    r
}

// An unserved side counts 0. The definition's type: a record may claim none.
#[tactic(auto, unfolding(model::specs::Attribution::served_setpoints))]
pub fn served_setpoints(cfg: Config, s: Settings) -> Option<Setpoints>
    ensures { result ≡ served_setpoints cfg s }
{
    Some(Setpoints {
        heating: if served::heats(cfg) {
            s.heating
        } else {
            Hundredths::ZERO
        },
        cooling: if served::cools(cfg) {
            s.cooling
        } else {
            Hundredths::ZERO
        },
    })
}

#[tactic(auto, unfolding(model::specs::Attribution::claim_setpoints))]
pub fn claim_setpoints(cfg: Config, r: Controller) -> Controller
    ensures { result ≡ claim_setpoints cfg r }
{
    Controller {
        change: attribute(r.change, served_setpoints(cfg, r.attrs.settings)),
        ..r
    }
}
