// model/specs/RaiseLower and Plans: the plan of raise/lower.
#![tactic(auto)]

mod raise_both;

ghost use Rattle.std.specs.Prelude.{◌≡◌};
ghost use Rattle.units.specs.Units.{in_hundredths, plus, clamping};
ghost use Rattle.model.specs.RaiseLower.{names_absent_side};
ghost use Rattle.model.specs.Plans as spec;
ghost use Rattle.records.specs.RaiseLowerModes.{code_of};

use limits::{Cooling, Heating, Side};
use records::{Config, Plan, RaiseLowerMode, Refusal, Removed, Settings, Stored};
use units::{Clamped, Hundredths, Tenths};

// The setpoint of a side moved by a signed amount of tenths, and clamped.
fn raise<S: Side>(cfg: Config, s: Settings, amount: Tenths) -> Clamped
    ensures { result ≡ clamping (plus (S.stored s) (in_hundredths amount)) (S.least cfg s) (S.greatest cfg s) }
{
    let asked = S::setpoint(s) + Hundredths::from(amount);
    limits::clamp_setpoint::<S>(cfg, s, asked)
}

#[tactic(auto, unfolding(model::specs::RaiseLower::names_absent_side))]
fn names_absent_side(cfg: Config, mode: RaiseLowerMode) -> bool
    ensures { result ≡ names_absent_side cfg (code_of mode) }
{
    match mode {
        RaiseLowerMode::Heat => !served::heats(cfg),
        RaiseLowerMode::Cool => !served::cools(cfg),
        RaiseLowerMode::Both => false,
    }
}

// Each plan with what clamping took off the targets asked. Heat and Cool fill different fields of `Removed`, which `Side` does not name, so each is an arm.
#[tactic(auto, unfolding(model::specs::Plans::plan_sides, units::specs::Units::raised, model::specs::Removed::heating_raise_removed, model::specs::Removed::cooling_raise_removed, model::specs::Limits::heat_removed, model::specs::Limits::cool_removed, model::specs::RaiseBoth::heating_target, model::specs::RaiseBoth::cooling_target))]
fn raise_sides(cfg: Config, s: Settings, mode: RaiseLowerMode, amount: Tenths) -> Plan
    ensures { result ≡ spec.plan_sides cfg s (code_of mode) amount }
{
    match mode {
        RaiseLowerMode::Heat => {
            let h = raise::<Heating>(cfg, s, amount);
            Plan {
                removed: Removed {
                    heating: h.removed,
                    ..Removed::NOTHING
                },
                ..writes_targets::heating_to(s, Stored::Nothing, h.given)
            }
        },
        RaiseLowerMode::Cool => {
            let c = raise::<Cooling>(cfg, s, amount);
            Plan {
                removed: Removed {
                    cooling: c.removed,
                    ..Removed::NOTHING
                },
                ..writes_targets::cooling_to(s, Stored::Nothing, c.given)
            }
        },
        RaiseLowerMode::Both => {
            let heating = raise_both::raise_if_served::<Heating>(cfg, s, amount);
            let cooling = raise_both::raise_if_served::<Cooling>(cfg, s, amount);
            Plan {
                removed: Removed {
                    heating: heating.removed,
                    cooling: cooling.removed,
                },
                ..writes_targets::both_to(heating.given, cooling.given)
            }
        },
    }
}

// It arms first, so 25 and 23 keep the newly armed clock.
#[tactic(auto, unfolding(model::specs::Plans::plan_raise_lower, model::specs::Plans::plan_unless, records::specs::Refusals::number))]
pub fn raise_lower_setpoint(cfg: Config, s: Settings, mode: u8, amount: Tenths) -> Plan
    ensures { result ≡ spec.plan_raise_lower cfg s mode amount }
{
    let plan = match RaiseLowerMode::try_from(mode) {
        Err(refusal) => writes_targets::refusal(s, refusal.into()),
        Ok(named) if names_absent_side(cfg, named) => {
            writes_targets::refusal(s, Refusal::AbsentSide.into())
        },
        Ok(named) => raise_sides(cfg, s, named, amount),
    };
    Plan { arms: true, ..plan }
}
