// model/specs/Plans: what each write asks for. Here the setpoint writes and the mode write; limits and raise/lower have crates of their own.
#![tactic(auto)]

ghost use Rattle.std.specs.Prelude.{◌≡◌, not, [], ◌∷◌};
ghost use Rattle.units.specs.Units.{within};
ghost use Rattle.records.specs.declared.Stored.TheVariants.{Nothing};
ghost use Rattle.model.specs.Refusals.{row};
ghost use Rattle.model.specs.Writes.{unserved};
ghost use Rattle.model.specs.Plans as spec;

use limits::{Cooling, Heating};
use records::{AttributeId, Call, Config, Plan, Refusal, Settings, Stored};
use units::Hundredths;
use writes_targets::Target;

#[tactic(auto, unfolding(model::specs::Plans::plan_unless, records::specs::Refusals::number))]
fn write_setpoint<S: Target>(cfg: Config, s: Settings, code: u16, v: Hundredths) -> Plan
    ensures { result ≡ spec.plan_unless (unserved cfg code ∷ row 22 (not (within v (S.least cfg s) (S.greatest cfg s))) ∷ []) s (S.planned_to s Nothing v) }
{
    if !served::serves(cfg, code) {
        return writes_targets::refusal(s, Refusal::UnservedAttribute.into());
    }
    if !limits::in_limits::<S>(cfg, s, v) {
        return writes_targets::refusal(s, Refusal::OutsideRule.into());
    }
    S::plan_to(s, Stored::Nothing, v)
}

// The two writes, under thermostat.rs's names.
#[tactic(auto, unfolding(model::specs::Plans::plan_heating_setpoint, model::specs::Plans::plan_unless, model::specs::Limits::in_heat_limits))]
fn write_occupied_heating_setpoint(cfg: Config, s: Settings, v: Hundredths) -> Plan
    ensures { result ≡ spec.plan_heating_setpoint cfg s v }
{
    write_setpoint::<Heating>(cfg, s, AttributeId::OccupiedHeatingSetpoint as u16, v)
}

#[tactic(auto, unfolding(model::specs::Plans::plan_cooling_setpoint, model::specs::Plans::plan_unless, model::specs::Limits::in_cool_limits))]
fn write_occupied_cooling_setpoint(cfg: Config, s: Settings, v: Hundredths) -> Plan
    ensures { result ≡ spec.plan_cooling_setpoint cfg s v }
{
    write_setpoint::<Cooling>(cfg, s, AttributeId::OccupiedCoolingSetpoint as u16, v)
}

#[tactic(auto, unfolding(model::specs::Plans::plan_system_mode, model::specs::Plans::plan_unless, records::specs::Refusals::number))]
fn write_system_mode(cfg: Config, s: Settings, v: u8) -> Plan
    ensures { result ≡ spec.plan_system_mode cfg s v }
{
    if !modes::is_supported_system_mode(cfg, v) {
        return writes_targets::refusal(s, Refusal::OutsideRule.into());
    }
    writes_targets::setting_alone(s, Stored::Mode(v))
}

// From configuration, settings and value alone, by cases as in the definition. A call that is no write has no plan.
#[tactic(auto, unfolding(model::specs::Plans::planned))]
pub fn plan(cfg: Config, s: Settings, call: Call) -> Option<Plan>
    ensures { result ≡ spec.planned cfg s call }
{
    let plan = match call {
        Call::WriteOccupiedHeatingSetpoint(v) => write_occupied_heating_setpoint(cfg, s, v),
        Call::WriteOccupiedCoolingSetpoint(v) => write_occupied_cooling_setpoint(cfg, s, v),
        Call::WriteMinHeatSetpointLimit(v) => {
            writes_limits::write_min_heat_setpoint_limit(cfg, s, v)
        },
        Call::WriteMaxHeatSetpointLimit(v) => {
            writes_limits::write_max_heat_setpoint_limit(cfg, s, v)
        },
        Call::WriteMinCoolSetpointLimit(v) => {
            writes_limits::write_min_cool_setpoint_limit(cfg, s, v)
        },
        Call::WriteMaxCoolSetpointLimit(v) => {
            writes_limits::write_max_cool_setpoint_limit(cfg, s, v)
        },
        Call::WriteSystemMode(v) => write_system_mode(cfg, s, v),
        Call::RaiseLowerSetpoint(mode, amount) => {
            writes_raise_lower::raise_lower_setpoint(cfg, s, mode, amount)
        },
        Call::Hour(h) => return week::hour(cfg, s, h),
        Call::SetControlSequenceOfOperation(_)
        | Call::ArmClock
        | Call::OutOfBand(_)
        | Call::SeedEvents
        | Call::Sweep
        | Call::Timer
        | Call::Deadline
        | Call::FactoryReset => return None,
    };
    Some(plan)
}
