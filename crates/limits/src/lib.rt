// model/specs/Units and Limits: the dead band; the limits in force, what lies within them, and clamping.
#![tactic(auto)]

mod side;

ghost use Rattle.std.specs.Prelude.{◌≡◌};
ghost use Rattle.units.specs.Units.{clamping, within};
ghost use Rattle.model.specs.Units.{dead_band};
ghost use Rattle.model.specs.Limits.{min_heat_setpoint, max_heat_setpoint, min_cool_setpoint, max_cool_setpoint, in_heat_limits, in_cool_limits, clamping_heat, clamping_cool};

use records::{Config, Settings};
pub use side::{Cooling, Heating, Side};
use units::{Clamped, Hundredths, Sum};

#[tactic(auto, unfolding(model::specs::Units::dead_band))]
pub fn dead_band(cfg: Config) -> Hundredths
    ensures { result ≡ dead_band cfg }
{
    if served::auto(cfg) {
        return cfg.deadband.into();
    }
    Hundredths::ZERO
}

// The limits in force: four functions, as in thermostat.rs. Configuration and settings are parameters of their own, as in the definitions.
#[tactic(auto, unfolding(model::specs::Limits::min_heat_setpoint))]
pub fn min_heat_setpoint(cfg: Config, s: Settings) -> Hundredths
    ensures { result ≡ min_heat_setpoint cfg s }
{
    if served::has_heat_limits(cfg) {
        return s.minheat;
    }
    cfg.absminheat
}

#[tactic(auto, unfolding(model::specs::Limits::max_heat_setpoint))]
pub fn max_heat_setpoint(cfg: Config, s: Settings) -> Hundredths
    ensures { result ≡ max_heat_setpoint cfg s }
{
    if served::has_heat_limits(cfg) {
        return s.maxheat;
    }
    cfg.absmaxheat
}

#[tactic(auto, unfolding(model::specs::Limits::min_cool_setpoint))]
pub fn min_cool_setpoint(cfg: Config, s: Settings) -> Hundredths
    ensures { result ≡ min_cool_setpoint cfg s }
{
    if served::has_cool_limits(cfg) {
        return s.mincool;
    }
    cfg.absmincool
}

#[tactic(auto, unfolding(model::specs::Limits::max_cool_setpoint))]
pub fn max_cool_setpoint(cfg: Config, s: Settings) -> Hundredths
    ensures { result ≡ max_cool_setpoint cfg s }
{
    if served::has_cool_limits(cfg) {
        return s.maxcool;
    }
    cfg.absmaxcool
}

// Whether a number lies within the limits in force of a side.
pub fn in_limits<S: Side>(cfg: Config, s: Settings, v: Hundredths) -> bool
    ensures { result ≡ within v (S.least cfg s) (S.greatest cfg s) }
{
    units_ranges::is_within(v, S::min_setpoint(cfg, s), S::max_setpoint(cfg, s))
}

// Clamping to the limits in force of a side, with the amount that it removes.
pub fn clamp_setpoint<S: Side>(cfg: Config, s: Settings, v: Sum) -> Clamped
    ensures { result ≡ clamping v.wide (S.least cfg s) (S.greatest cfg s) }
{
    units_ranges::clamp(v, S::min_setpoint(cfg, s), S::max_setpoint(cfg, s))
}

// The same of each side, under the names of the definitions.
#[tactic(auto, unfolding(model::specs::Limits::in_heat_limits))]
pub fn in_heat_limits(cfg: Config, s: Settings, v: Hundredths) -> bool
    ensures { result ≡ in_heat_limits cfg s v }
{
    in_limits::<Heating>(cfg, s, v)
}

#[tactic(auto, unfolding(model::specs::Limits::in_cool_limits))]
pub fn in_cool_limits(cfg: Config, s: Settings, v: Hundredths) -> bool
    ensures { result ≡ in_cool_limits cfg s v }
{
    in_limits::<Cooling>(cfg, s, v)
}

#[tactic(auto, unfolding(model::specs::Limits::clamp_heat_setpoint, model::specs::Limits::heat_removed))]
pub fn clamp_heat_setpoint(cfg: Config, s: Settings, v: Sum) -> Clamped
    ensures { result ≡ clamping_heat cfg s v.wide }
{
    clamp_setpoint::<Heating>(cfg, s, v)
}

#[tactic(auto, unfolding(model::specs::Limits::clamp_cool_setpoint, model::specs::Limits::cool_removed))]
pub fn clamp_cool_setpoint(cfg: Config, s: Settings, v: Sum) -> Clamped
    ensures { result ≡ clamping_cool cfg s v.wide }
{
    clamp_setpoint::<Cooling>(cfg, s, v)
}
