// model/specs/Validation: rows 1 to 21, all at once.
// Row 28 asks this at every call: crate validation, which finds the first failing row, would take 187 instructions in place of 162.
#![tactic(auto)]

ghost use Rattle.std.specs.Prelude.{◌≡◌, ◌||◌};
ghost use Rattle.model.specs.Refusals.{none_fails};
ghost use Rattle.model.specs.Validation.{feature_rows, attribute_row, attribute_rows, limit_rows, event_row, event_rows, number_rows, accepted};

use records::{AttributeId, CommandId, Config, EventId, feature};
use units::Hundredths;

// Rows 1 to 4.
#[tactic(auto, using(model::proofs::Accepted::none_cons, model::proofs::Accepted::none_last), unfolding(model::specs::Validation::feature_rows))]
fn accepts_features(cfg: Config) -> bool
    ensures { result ≡ none_fails (feature_rows cfg) }
{
    let heats = served::heats(cfg);
    let cools = served::cools(cfg);
    let right = cfg.revision == Config::CLUSTER_REVISION;
    let known = cfg.features | feature::SUPPORTED_FEATURES == feature::SUPPORTED_FEATURES;
    right && known && (heats || cools) && !(served::auto(cfg) && !(heats && cools))
}

// Rows 5 and 6 of one attribute: served exactly where wanted.
#[tactic(auto, using(crate::proofs::Flags::exactly_served))]
fn accepts_attribute(cfg: Config, code: u16, wanted: bool) -> bool
    ensures { result ≡ none_fails (attribute_row cfg code wanted) }
{
    served::serves(cfg, code) == wanted
}

#[tactic(auto, using(crate::proofs::Flags::attribute_groups))]
fn accepts_attributes(cfg: Config) -> bool
    ensures { result ≡ none_fails (attribute_rows cfg) }
{
    accepts_attribute(cfg, AttributeId::LocalTemperature as u16, true)
        && accepts_attribute(cfg, AttributeId::ControlSequenceOfOperation as u16, true)
        && accepts_attribute(cfg, AttributeId::SystemMode as u16, true)
        && accepts_attribute(
            cfg,
            AttributeId::OccupiedHeatingSetpoint as u16,
            served::heats(cfg),
        )
        && accepts_attribute(
            cfg,
            AttributeId::OccupiedCoolingSetpoint as u16,
            served::cools(cfg),
        )
        && accepts_attribute(
            cfg,
            AttributeId::MinSetpointDeadBand as u16,
            served::auto(cfg),
        )
}

// Rows 7 to 10. 7 and 8 of a side: none of its limits, or all with its feature.
#[tactic(auto, using(model::proofs::Accepted::none_cons, model::proofs::Accepted::none_last, crate::proofs::Flags::sides, crate::proofs::Flags::all_or_none), unfolding(model::specs::Validation::limit_rows, model::specs::Served::some_heat_limit, model::specs::Served::some_cool_limit, model::specs::Served::has_heat_limits, model::specs::Served::has_cool_limits))]
fn accepts_limit_sets(cfg: Config) -> bool
    ensures { result ≡ none_fails (limit_rows cfg) }
{
    let auto = served::auto(cfg);
    let heat = served::has_heat_limits(cfg);
    let cool = served::has_cool_limits(cfg);
    let some_heat = served::has_some_heat_limit(cfg);
    let some_cool = served::has_some_cool_limit(cfg);
    let heat_right = some_heat == (heat && served::heats(cfg));
    let cool_right = some_cool == (cool && served::cools(cfg));
    let one_sided = auto && heat != cool;
    let without_auto = served::serves(cfg, AttributeId::ThermostatRunningMode as u16) && !auto;
    heat_right && cool_right && !one_sided && !without_auto
}

// Rows 12 to 14 of one event: emitted exactly where TEVT is there and it applies.
#[tactic(auto, using(crate::proofs::Flags::exactly_emitted), unfolding(model::specs::Served::supports))]
fn accepts_event(cfg: Config, code: u16, applies: bool) -> bool
    ensures { result ≡ none_fails (event_row cfg code applies) }
{
    let supported = served::supports_events(cfg);
    served::emits(cfg, code) == (supported && applies)
}

// Rows 11 to 15.
#[tactic(auto, using(crate::proofs::Flags::event_groups), unfolding(units::specs::Units::less))]
fn accepts_events(cfg: Config) -> bool
    ensures { result ≡ none_fails (event_rows cfg) }
{
    let exposed = !served::local_temperature_not_exposed(cfg);
    let unknown = served::emits(cfg, EventId::OccupancyChange as u16)
        || served::emits(cfg, EventId::ActiveScheduleChange as u16)
        || served::emits(cfg, EventId::ActivePresetChange as u16);
    !unknown
        && accepts_event(cfg, EventId::SystemModeChange as u16, true)
        && accepts_event(cfg, EventId::LocalTemperatureChange as u16, exposed)
        && accepts_event(cfg, EventId::SetpointChange as u16, true)
        && accepts_event(cfg, EventId::RunningStateChange as u16, true)
        && accepts_event(cfg, EventId::RunningModeChange as u16, served::auto(cfg))
        && Hundredths::ZERO <= cfg.delta
}

// Rows 16 to 21.
#[tactic(auto, using(model::proofs::Accepted::none_cons, model::proofs::Accepted::none_last), unfolding(model::specs::Validation::number_rows))]
fn accepts_numbers(cfg: Config) -> bool
    ensures { result ≡ none_fails (number_rows cfg) }
{
    let auto = served::auto(cfg);
    let band = limits::dead_band(cfg);
    let negative = units::is_negative(cfg.deadband.into());
    let low = units::is_above(cfg.absminheat, (cfg.absmincool - band).wide);
    let high = units::is_above(cfg.absmaxheat, (cfg.absmaxcool - band).wide);
    let heat_differs = served::heats(cfg) != modes::sequence_heats(cfg);
    let cool_differs = served::cools(cfg) != modes::sequence_cools(cfg);
    served::listed(cfg.commands, CommandId::SetpointRaiseLower as u16)
        && !units::is_range_empty(cfg.absminheat, cfg.absmaxheat)
        && !units::is_range_empty(cfg.absmincool, cfg.absmaxcool)
        && !(auto && negative)
        && !(auto && (low || high))
        && !(heat_differs || cool_differs)
}

// Whether no row of 1 to 21 fails.
#[tactic(auto, using(model::proofs::Accepted::accepted_groups))]
pub fn is_accepted(cfg: Config) -> bool
    ensures { result ≡ accepted cfg }
{
    accepts_features(cfg)
        && accepts_attributes(cfg)
        && accepts_limit_sets(cfg)
        && accepts_events(cfg)
        && accepts_numbers(cfg)
}
