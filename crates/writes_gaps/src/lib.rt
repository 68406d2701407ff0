// model/specs/Writes: the gap that AUTO keeps between the setpoints. Its clamps cut nothing (C-12), so no amount is handed on.
#![tactic(auto)]

ghost use Rattle.std.specs.Prelude.{◌≡◌};
ghost use Rattle.model.specs.Writes as spec;

use records::{Config, Settings};
use units::Hundredths;

#[tactic(auto, unfolding(model::specs::Writes::too_near_cooling))]
fn is_too_near_cooling(cfg: Config, s: Settings, v: Hundredths) -> bool
    ensures { result ≡ spec.too_near_cooling cfg s v }
{
    let highest = s.cooling - limits::dead_band(cfg);
    served::auto(cfg) && units::is_above(v, highest.wide)
}

#[tactic(auto, unfolding(model::specs::Writes::too_near_heating))]
fn is_too_near_heating(cfg: Config, s: Settings, v: Hundredths) -> bool
    ensures { result ≡ spec.too_near_heating cfg s v }
{
    let lowest = s.heating + limits::dead_band(cfg);
    served::auto(cfg) && units::is_below(v, lowest.wide)
}

// Cooling, once heating is `v`. The two sides mirror each other, one adds and one subtracts, so neither function is the other's.
#[tactic(auto, unfolding(model::specs::Writes::cooling_with_gap))]
pub fn cooling_with_gap(cfg: Config, s: Settings, v: Hundredths) -> Hundredths
    ensures { result ≡ spec.cooling_with_gap cfg s v }
{
    if is_too_near_cooling(cfg, s, v) {
        return limits::clamp_cool_setpoint(cfg, s, v + limits::dead_band(cfg)).given;
    }
    s.cooling
}

// Heating, once cooling is `v`.
#[tactic(auto, unfolding(model::specs::Writes::heating_with_gap))]
pub fn heating_with_gap(cfg: Config, s: Settings, v: Hundredths) -> Hundredths
    ensures { result ≡ spec.heating_with_gap cfg s v }
{
    if is_too_near_heating(cfg, s, v) {
        return limits::clamp_heat_setpoint(cfg, s, v - limits::dead_band(cfg)).given;
    }
    s.heating
}
