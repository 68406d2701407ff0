// model/specs/Modes: control sequences and supported modes; counted relays and the running mode.
#![tactic(auto)]

ghost use Rattle.std.specs.Prelude.{◌≡◌};
ghost use Rattle.model.specs.Modes.{sequence_heats, sequence_cools, is_supported_system_mode, relay_mask, running_state, running_mode};

use records::{Config, control_sequence, relay, system_mode};

// Two functions, as in thermostat.rs.
#[tactic(auto, unfolding(model::specs::Modes::sequence_heats))]
pub fn sequence_heats(cfg: Config) -> bool
    ensures { result ≡ sequence_heats cfg }
{
    matches!(
        cfg.sequence,
        control_sequence::HEATING_ONLY
            | control_sequence::HEATING_WITH_REHEAT
            | control_sequence::COOLING_AND_HEATING
            | control_sequence::COOLING_AND_HEATING_WITH_REHEAT
    )
}

#[tactic(auto, unfolding(model::specs::Modes::sequence_cools))]
pub fn sequence_cools(cfg: Config) -> bool
    ensures { result ≡ sequence_cools cfg }
{
    matches!(
        cfg.sequence,
        control_sequence::COOLING_ONLY
            | control_sequence::COOLING_WITH_REHEAT
            | control_sequence::COOLING_AND_HEATING
            | control_sequence::COOLING_AND_HEATING_WITH_REHEAT
    )
}

// Off 0, Auto 1, Cool 3, Heat 4; all others never.
#[tactic(auto, unfolding(model::specs::Modes::is_supported_system_mode))]
pub fn is_supported_system_mode(cfg: Config, mode: u8) -> bool
    ensures { result ≡ is_supported_system_mode cfg mode }
{
    match mode {
        system_mode::OFF => true,
        system_mode::AUTO => served::auto(cfg),
        system_mode::COOL => sequence_cools(cfg),
        system_mode::HEAT => sequence_heats(cfg),
        _ => false,
    }
}

#[tactic(auto, unfolding(model::specs::Modes::relay_mask))]
fn relay_mask(cfg: Config) -> u16
    ensures { result ≡ relay_mask cfg }
{
    let heat = if sequence_heats(cfg) {
        relay::HEAT_STAGES
    } else {
        0
    };
    let cool = if sequence_cools(cfg) {
        relay::COOL_STAGES
    } else {
        0
    };
    relay::FAN_STAGES | heat | cool
}

#[tactic(auto, unfolding(model::specs::Modes::running_state))]
pub fn running_state(cfg: Config, relays: u16) -> u16
    ensures { result ≡ running_state cfg relays }
{
    relays & relay_mask(cfg)
}

#[tactic(auto, unfolding(model::specs::Modes::running_mode))]
pub fn running_mode(counted: u16) -> u8
    ensures { result ≡ running_mode counted }
{
    if counted & relay::HEAT_STAGES != 0 {
        system_mode::HEAT
    } else if counted & relay::COOL_STAGES != 0 {
        system_mode::COOL
    } else {
        system_mode::OFF
    }
}
