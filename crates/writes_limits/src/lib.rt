// model/specs/Writes and Plans: when a limit write is refused, and its plan.
#![tactic(auto)]

ghost use Rattle.std.specs.Prelude.{◌≡◌, cond};
ghost use Rattle.units.specs.Units.{clamped, widened, within};
ghost use Rattle.model.specs.Plans as spec;
ghost use Rattle.model.specs.Writes.{heat_limit_refused, cool_limit_refused, limit_write_rows};

use limits::{Cooling, Heating};
use records::{AttributeId, Config, Plan, Refusal, Settings, Stored};
use units::{Hundredths, Sum};
use writes_targets::Target;

// Outside `lo`..`hi`, or with AUTO nearer than the dead band to the cooling limit of the same kind.
fn is_heat_limit_refused(
    cfg: Config,
    v: Hundredths,
    lo: Hundredths,
    hi: Hundredths,
    other: Hundredths,
) -> bool
    ensures { result ≡ heat_limit_refused cfg v lo hi other }
{
    let highest = other - limits::dead_band(cfg);
    !units_ranges::is_within(v, lo, hi) || (served::auto(cfg) && units::is_above(v, highest.wide))
}

// Not one function with heating's: here the dead band is added, and the number may not lie below.
fn is_cool_limit_refused(
    cfg: Config,
    v: Hundredths,
    lo: Hundredths,
    hi: Hundredths,
    other: Hundredths,
) -> bool
    ensures { result ≡ cool_limit_refused cfg v lo hi other }
{
    let lowest = other + limits::dead_band(cfg);
    !units_ranges::is_within(v, lo, hi) || (served::auto(cfg) && units::is_below(v, lowest.wide))
}

// `t` has the limit in it that `stored` names. A setpoint outside the limits in force goes to the nearest one.
#[tactic(auto, unfolding(model::specs::Plans::plan_unless, records::specs::Refusals::number))]
fn write_limit<S: Target>(
    cfg: Config,
    t: Settings,
    refused: bool,
    code: u16,
    stored: Stored,
) -> Plan
    ensures { result ≡ spec.plan_unless (limit_write_rows cfg code refused) t (cond (within (S.stored t) (S.least cfg t) (S.greatest cfg t)) (spec.setting_alone t stored) (S.planned_to t stored (clamped (widened (S.stored t)) (S.least cfg t) (S.greatest cfg t)))) }
{
    if !served::serves(cfg, code) {
        return writes_targets::refusal(t, Refusal::UnservedAttribute.into());
    }
    if refused {
        return writes_targets::refusal(t, Refusal::OutsideRule.into());
    }
    let v = S::setpoint(t);
    if limits::in_limits::<S>(cfg, t, v) {
        return writes_targets::setting_alone(t, stored);
    }
    let target = limits::clamp_setpoint::<S>(cfg, t, Sum::from(v)).given;
    S::plan_to(t, stored, target)
}

// Four functions still: a trait for a limit would have seven members, each written four times.
#[tactic(auto, unfolding(model::specs::Plans::plan_min_heat_limit, model::specs::Plans::plan_unless, model::specs::Plans::heating_pulled, model::specs::Limits::in_heat_limits, model::specs::Limits::clamp_heat_setpoint))]
pub fn write_min_heat_setpoint_limit(cfg: Config, s: Settings, v: Hundredths) -> Plan
    ensures { result ≡ spec.plan_min_heat_limit cfg s v }
{
    let other = limits::min_cool_setpoint(cfg, s);
    let refused = is_heat_limit_refused(cfg, v, cfg.absminheat, s.maxheat, other);
    let code = AttributeId::MinHeatSetpointLimit as u16;
    let t = Settings { minheat: v, ..s };
    write_limit::<Heating>(cfg, t, refused, code, Stored::MinHeat(v))
}

#[tactic(auto, unfolding(model::specs::Plans::plan_max_heat_limit, model::specs::Plans::plan_unless, model::specs::Plans::heating_pulled, model::specs::Limits::in_heat_limits, model::specs::Limits::clamp_heat_setpoint))]
pub fn write_max_heat_setpoint_limit(cfg: Config, s: Settings, v: Hundredths) -> Plan
    ensures { result ≡ spec.plan_max_heat_limit cfg s v }
{
    let other = limits::max_cool_setpoint(cfg, s);
    let refused = is_heat_limit_refused(cfg, v, s.minheat, cfg.absmaxheat, other);
    let code = AttributeId::MaxHeatSetpointLimit as u16;
    let t = Settings { maxheat: v, ..s };
    write_limit::<Heating>(cfg, t, refused, code, Stored::MaxHeat(v))
}

#[tactic(auto, unfolding(model::specs::Plans::plan_min_cool_limit, model::specs::Plans::plan_unless, model::specs::Plans::cooling_pulled, model::specs::Limits::in_cool_limits, model::specs::Limits::clamp_cool_setpoint))]
pub fn write_min_cool_setpoint_limit(cfg: Config, s: Settings, v: Hundredths) -> Plan
    ensures { result ≡ spec.plan_min_cool_limit cfg s v }
{
    let other = limits::min_heat_setpoint(cfg, s);
    let refused = is_cool_limit_refused(cfg, v, cfg.absmincool, s.maxcool, other);
    let code = AttributeId::MinCoolSetpointLimit as u16;
    let t = Settings { mincool: v, ..s };
    write_limit::<Cooling>(cfg, t, refused, code, Stored::MinCool(v))
}

#[tactic(auto, unfolding(model::specs::Plans::plan_max_cool_limit, model::specs::Plans::plan_unless, model::specs::Plans::cooling_pulled, model::specs::Limits::in_cool_limits, model::specs::Limits::clamp_cool_setpoint))]
pub fn write_max_cool_setpoint_limit(cfg: Config, s: Settings, v: Hundredths) -> Plan
    ensures { result ≡ spec.plan_max_cool_limit cfg s v }
{
    let other = limits::max_heat_setpoint(cfg, s);
    let refused = is_cool_limit_refused(cfg, v, s.mincool, cfg.absmaxcool, other);
    let code = AttributeId::MaxCoolSetpointLimit as u16;
    let t = Settings { maxcool: v, ..s };
    write_limit::<Cooling>(cfg, t, refused, code, Stored::MaxCool(v))
}
