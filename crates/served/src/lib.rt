// model/specs/Served: what a configuration lists: features, attributes, events.
#![tactic(auto)]

ghost use Rattle.std.specs.Prelude.{◌≡◌, ◌||◌};
ghost use Rattle.model.specs.Served as spec;

use records::{AttributeId, Config, feature};

#[tactic(auto, unfolding(model::specs::Served::supports))]
fn supports_feature(cfg: Config, feature: u32) -> bool
    ensures { result ≡ spec.supports cfg feature }
{
    cfg.features & feature != 0
}

// A function for each feature, as thermostat.rs has for most, for attributes and events, and for the limits of each side.
pub fn heats(cfg: Config) -> bool
    ensures { result ≡ spec.heats cfg }
{
    supports_feature(cfg, feature::HEATING)
}

pub fn cools(cfg: Config) -> bool
    ensures { result ≡ spec.cools cfg }
{
    supports_feature(cfg, feature::COOLING)
}

pub fn auto(cfg: Config) -> bool
    ensures { result ≡ spec.auto cfg }
{
    supports_feature(cfg, feature::AUTO_MODE)
}

// TEVT
pub fn supports_events(cfg: Config) -> bool
    ensures { result ≡ spec.supports_events cfg }
{
    supports_feature(cfg, feature::EVENTS)
}

// LTNE
pub fn local_temperature_not_exposed(cfg: Config) -> bool
    ensures { result ≡ spec.local_temperature_not_exposed cfg }
{
    supports_feature(cfg, feature::LOCAL_TEMPERATURE_NOT_EXPOSED)
}

// The bit of a code in a set. With `&&` in place of the `if` the answer for a late code does not close.
#[tactic(auto, unfolding(model::specs::Served::listed))]
pub fn listed(set: u64, code: u16) -> bool
    ensures { result ≡ spec.listed set code }
{
    if code < 64 {
        return (set >> code) % 2 == 1;
    }
    false
}

pub fn serves(cfg: Config, code: u16) -> bool
    ensures { result ≡ spec.serves cfg code }
{
    listed(cfg.attributes, code)
}

pub fn emits(cfg: Config, code: u16) -> bool
    ensures { result ≡ spec.emits cfg code }
{
    listed(cfg.events, code)
}

// The four limit attributes of heating: ABS minimum and maximum, minimum and maximum.
#[tactic(auto, unfolding(model::specs::Served::has_heat_limits))]
pub fn has_heat_limits(cfg: Config) -> bool
    ensures { result ≡ spec.has_heat_limits cfg }
{
    serves(cfg, AttributeId::AbsMinHeatSetpointLimit as u16)
        && serves(cfg, AttributeId::AbsMaxHeatSetpointLimit as u16)
        && serves(cfg, AttributeId::MinHeatSetpointLimit as u16)
        && serves(cfg, AttributeId::MaxHeatSetpointLimit as u16)
}

#[tactic(auto, unfolding(model::specs::Served::has_cool_limits))]
pub fn has_cool_limits(cfg: Config) -> bool
    ensures { result ≡ spec.has_cool_limits cfg }
{
    serves(cfg, AttributeId::AbsMinCoolSetpointLimit as u16)
        && serves(cfg, AttributeId::AbsMaxCoolSetpointLimit as u16)
        && serves(cfg, AttributeId::MinCoolSetpointLimit as u16)
        && serves(cfg, AttributeId::MaxCoolSetpointLimit as u16)
}

// Whether any of four attributes is served.
fn serves_some(cfg: Config, a: u16, b: u16, c: u16, d: u16) -> bool
    ensures { result ≡ (spec.serves cfg a || spec.serves cfg b) || (spec.serves cfg c || spec.serves cfg d) }
{
    serves(cfg, a) || serves(cfg, b) || serves(cfg, c) || serves(cfg, d)
}

#[tactic(auto, unfolding(model::specs::Served::some_heat_limit))]
pub fn has_some_heat_limit(cfg: Config) -> bool
    ensures { result ≡ spec.some_heat_limit cfg }
{
    serves_some(
        cfg,
        AttributeId::AbsMinHeatSetpointLimit as u16,
        AttributeId::AbsMaxHeatSetpointLimit as u16,
        AttributeId::MinHeatSetpointLimit as u16,
        AttributeId::MaxHeatSetpointLimit as u16,
    )
}

#[tactic(auto, unfolding(model::specs::Served::some_cool_limit))]
pub fn has_some_cool_limit(cfg: Config) -> bool
    ensures { result ≡ spec.some_cool_limit cfg }
{
    serves_some(
        cfg,
        AttributeId::AbsMinCoolSetpointLimit as u16,
        AttributeId::AbsMaxCoolSetpointLimit as u16,
        AttributeId::MinCoolSetpointLimit as u16,
        AttributeId::MaxCoolSetpointLimit as u16,
    )
}
