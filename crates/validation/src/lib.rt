// model/specs/Validation: rows 1 to 21, first failure wins.
#![tactic(auto, unfolding(records::specs::Refusals::number_or, records::specs::Refusals::number, model::specs::Refusals::then_rows, model::specs::Validation::feature_rows, model::specs::Validation::attribute_rows, model::specs::Validation::limit_rows, model::specs::Validation::event_rows, model::specs::Validation::number_rows))]

ghost use Rattle.std.specs.Prelude.{◌≡◌, cond, ℕ, not, ◌&&◌, ◌||◌};
ghost use Rattle.records.specs.Refusals.{number, number_or};
ghost use Rattle.units.specs.Units.{above, minus};
ghost use Rattle.model.specs.Modes.{sequence_heats, sequence_cools};
ghost use Rattle.model.specs.Refusals.{then_rows};
ghost use Rattle.model.specs.Served.{heats, cools, emits, supports_events, has_heat_limits, has_cool_limits, some_heat_limit, some_cool_limit};
ghost use Rattle.model.specs.Units.{dead_band};
ghost use Rattle.model.specs.Validation.{differ, feature_rows, attribute_row, attribute_rows, limit_rows, event_row, event_rows, number_rows, validated};

use records::{AttributeId, CommandId, Config, EventId, Refusal, feature};

fn refuse_if(cause: bool, refusal: Refusal) -> Result<(), Refusal>
    ensures { (rest : ℕ) → number_or result rest ≡ cond cause (number refusal) rest }
{
    if cause { Err(refusal) } else { Ok(()) }
}

// Rows 1 to 4.
fn validate_features(cfg: Config) -> Result<(), Refusal>
    ensures { (rest : ℕ) → number_or result rest ≡ then_rows (feature_rows cfg) rest }
{
    let heats = served::heats(cfg);
    let cools = served::cools(cfg);
    let known = cfg.features | feature::SUPPORTED_FEATURES == feature::SUPPORTED_FEATURES;
    refuse_if(cfg.revision != Config::CLUSTER_REVISION, Refusal::Revision)?;
    refuse_if(!known, Refusal::UnknownFeature)?;
    refuse_if(!(heats || cools), Refusal::NoSide)?;
    refuse_if(
        served::auto(cfg) && !(heats && cools),
        Refusal::AutoWithoutBothSides,
    )
}

// Rows 5 and 6 of one attribute.
fn validate_attribute(cfg: Config, code: u16, wanted: bool) -> Result<(), Refusal>
    ensures { (rest : ℕ) → number_or result rest ≡ then_rows (attribute_row cfg code wanted) rest }
{
    let served = served::serves(cfg, code);
    refuse_if(wanted && !served, Refusal::AttributeMissing)?;
    refuse_if(!wanted && served, Refusal::AttributeWithoutFeature)
}

fn validate_attributes(cfg: Config) -> Result<(), Refusal>
    ensures { (rest : ℕ) → number_or result rest ≡ then_rows (attribute_rows cfg) rest }
{
    let heats = served::heats(cfg);
    let cools = served::cools(cfg);
    let auto = served::auto(cfg);
    validate_attribute(cfg, AttributeId::LocalTemperature as u16, true)?;
    validate_attribute(cfg, AttributeId::ControlSequenceOfOperation as u16, true)?;
    validate_attribute(cfg, AttributeId::SystemMode as u16, true)?;
    validate_attribute(cfg, AttributeId::OccupiedHeatingSetpoint as u16, heats)?;
    validate_attribute(cfg, AttributeId::OccupiedCoolingSetpoint as u16, cools)?;
    validate_attribute(cfg, AttributeId::MinSetpointDeadBand as u16, auto)
}

fn limits_incomplete(cfg: Config) -> bool
    ensures { result ≡ (some_heat_limit cfg && not (has_heat_limits cfg)) || (some_cool_limit cfg && not (has_cool_limits cfg)) }
{
    served::has_some_heat_limit(cfg) && !served::has_heat_limits(cfg)
        || served::has_some_cool_limit(cfg) && !served::has_cool_limits(cfg)
}

fn limits_without_side(cfg: Config) -> bool
    ensures { result ≡ (has_heat_limits cfg && not (heats cfg)) || (has_cool_limits cfg && not (cools cfg)) }
{
    served::has_heat_limits(cfg) && !served::heats(cfg)
        || served::has_cool_limits(cfg) && !served::cools(cfg)
}

// Rows 7 to 10.
fn validate_limit_sets(cfg: Config) -> Result<(), Refusal>
    ensures { (rest : ℕ) → number_or result rest ≡ then_rows (limit_rows cfg) rest }
{
    let auto = served::auto(cfg);
    let running = served::serves(cfg, AttributeId::ThermostatRunningMode as u16);
    let one_sided = served::has_heat_limits(cfg) != served::has_cool_limits(cfg);
    refuse_if(limits_incomplete(cfg), Refusal::LimitsIncomplete)?;
    refuse_if(limits_without_side(cfg), Refusal::LimitsWithoutSide)?;
    refuse_if(auto && one_sided, Refusal::LimitsOfOneSide)?;
    refuse_if(running && !auto, Refusal::RunningModeWithoutAuto)
}

// Rows 12 to 14 of one event.
fn validate_event(cfg: Config, code: u16, applies: bool) -> Result<(), Refusal>
    ensures { (rest : ℕ) → number_or result rest ≡ then_rows (event_row cfg code applies) rest }
{
    let emits = served::emits(cfg, code);
    let supported = served::supports_events(cfg);
    refuse_if(emits && !supported, Refusal::EventWithoutFeature)?;
    refuse_if(emits && !applies, Refusal::EventNotApplicable)?;
    refuse_if(supported && applies && !emits, Refusal::EventMissing)
}

fn emits_unknown(cfg: Config) -> bool
    ensures { result ≡ emits cfg 2 || (emits cfg 6 || emits cfg 7) }
{
    served::emits(cfg, EventId::OccupancyChange as u16)
        || served::emits(cfg, EventId::ActiveScheduleChange as u16)
        || served::emits(cfg, EventId::ActivePresetChange as u16)
}

// Rows 11 to 15.
fn validate_events(cfg: Config) -> Result<(), Refusal>
    ensures { (rest : ℕ) → number_or result rest ≡ then_rows (event_rows cfg) rest }
{
    let exposed = !served::local_temperature_not_exposed(cfg);
    let auto = served::auto(cfg);
    refuse_if(emits_unknown(cfg), Refusal::EventUnknown)?;
    validate_event(cfg, EventId::SystemModeChange as u16, true)?;
    validate_event(cfg, EventId::LocalTemperatureChange as u16, exposed)?;
    validate_event(cfg, EventId::SetpointChange as u16, true)?;
    validate_event(cfg, EventId::RunningStateChange as u16, true)?;
    validate_event(cfg, EventId::RunningModeChange as u16, auto)?;
    refuse_if(units::is_negative(cfg.delta), Refusal::NegativeDelta)
}

fn abs_limits_too_close(cfg: Config) -> bool
    ensures { result ≡ above cfg.absminheat (minus cfg.absmincool (dead_band cfg)) || above cfg.absmaxheat (minus cfg.absmaxcool (dead_band cfg)) }
{
    let band = limits::dead_band(cfg);
    units::is_above(cfg.absminheat, (cfg.absmincool - band).wide)
        || units::is_above(cfg.absmaxheat, (cfg.absmaxcool - band).wide)
}

fn sequence_mismatch(cfg: Config) -> bool
    ensures { result ≡ differ (heats cfg) (sequence_heats cfg) || differ (cools cfg) (sequence_cools cfg) }
{
    served::heats(cfg) != modes::sequence_heats(cfg)
        || served::cools(cfg) != modes::sequence_cools(cfg)
}

// Rows 16 to 21. In line, since by itself it is called with a copy of the configuration: 187 instructions a validation in place of 234.
#[inline(always)]
fn validate_numbers(cfg: Config) -> Result<(), Refusal>
    ensures { (rest : ℕ) → number_or result rest ≡ then_rows (number_rows cfg) rest }
{
    let auto = served::auto(cfg);
    let raises = served::listed(cfg.commands, CommandId::SetpointRaiseLower as u16);
    let heat_empty = units::is_range_empty(cfg.absminheat, cfg.absmaxheat);
    let cool_empty = units::is_range_empty(cfg.absmincool, cfg.absmaxcool);
    let negative = units::is_negative(cfg.deadband.into());
    refuse_if(!raises, Refusal::NoRaiseLower)?;
    refuse_if(heat_empty, Refusal::HeatRangeEmpty)?;
    refuse_if(cool_empty, Refusal::CoolRangeEmpty)?;
    refuse_if(auto && negative, Refusal::NegativeDeadBand)?;
    refuse_if(
        auto && abs_limits_too_close(cfg),
        Refusal::AbsLimitsTooClose,
    )?;
    refuse_if(sequence_mismatch(cfg), Refusal::SequenceMismatch)
}

// The first failure, or none.
#[tactic(auto, using(model::proofs::Valid::validated_rows), unfolding(records::specs::Refusals::number_or))]
pub fn validate(cfg: Config) -> Result<(), Refusal>
    ensures { number_or result 0 ≡ validated cfg }
{
    validate_features(cfg)?;
    validate_attributes(cfg)?;
    validate_limit_sets(cfg)?;
    validate_events(cfg)?;
    validate_numbers(cfg)
}
