// Document 01, One plant, ten calls: the plant, its settings, the readings that a call gets, and the calls.
#![tactic(auto)]

ghost use Rattle.std.specs.Prelude.{◌≡◌, get_or};
ghost use Rattle.integers.specs.Linear.{pos_part};
ghost use Rattle.model.specs.Plant as spec;

use records::{
    Call, Config, OutOfBandMessage, RaiseLowerMode, Readings, Settings, control_sequence, feature,
    system_mode,
};
use units::{Hundredths, Tenths};

const FEATURES: u32 = feature::HEATING | feature::COOLING | feature::AUTO_MODE | feature::EVENTS;

// Attributes: all that document 01 names. Events: mode, temperature, setpoint, relays, running mode. Command: raise/lower.
pub fn plant() -> Config
    ensures { result ≡ spec.plant }
{
    Config {
        revision: Config::CLUSTER_REVISION,
        features: FEATURES,
        attributes: 0x702005BE60079,
        events: 0x3B,
        commands: 0x1,
        absminheat: Hundredths(700),
        absmaxheat: Hundredths(2900),
        absmincool: Hundredths(1600),
        absmaxcool: Hundredths(3200),
        deadband: Tenths(25),
        sequence: control_sequence::COOLING_AND_HEATING,
        delta: Hundredths(50),
        defaults: settings(),
    }
}

pub fn settings() -> Settings
    ensures { result ≡ spec.plant_settings 2000 2250 }
{
    Settings {
        heating: Hundredths(2000),
        cooling: Hundredths(2250),
        minheat: Hundredths(700),
        maxheat: Hundredths(2900),
        mincool: Hundredths(1600),
        maxcool: Hundredths(3200),
        mode: system_mode::AUTO,
    }
}

pub fn no_readings() -> Readings
    ensures { result ≡ spec.no_readings }
{
    Readings {
        relaysbefore: 0,
        relaysafter: 0,
        temperature: None,
        hook: None,
        node: None,
        clock: 0,
    }
}

// The calls after the opening.
static TEN_CALLS: [Call; 9] = [
    Call::WriteOccupiedHeatingSetpoint(Hundredths(2100)),
    Call::WriteOccupiedHeatingSetpoint(Hundredths(2901)),
    Call::RaiseLowerSetpoint(RaiseLowerMode::Both as u8, Tenths(10)),
    Call::OutOfBand(OutOfBandMessage::OccupiedCoolingSetpoint(Hundredths(2300))),
    Call::WriteMaxCoolSetpointLimit(Hundredths(3100)),
    Call::WriteOccupiedCoolingSetpoint(Hundredths(2300)),
    Call::OutOfBand(OutOfBandMessage::SetpointLimits(
        Hundredths(2000),
        Hundredths(1000),
        Hundredths(1600),
        Hundredths(1600),
    )),
    // Mode 3 names no side.
    Call::RaiseLowerSetpoint(3, Tenths(10)),
    Call::RaiseLowerSetpoint(RaiseLowerMode::Cool as u8, Tenths(-128)),
];

// The calls after the opening, counted from 0; past the last, a sweep.
pub fn call_at(i: u64) -> Call
    ensures { result ≡ get_or spec.ten_calls i Call.Sweep }
{
    TEN_CALLS.get(i as usize).copied().unwrap_or(Call::Sweep)
}

// The number itself, and 0 for one below. A setpoint of this plant is never below 0.
pub fn whole(v: Hundredths) -> u64
    ensures { result ≡ pos_part v.0 }
{
    u64::try_from(v.0).unwrap_or(0)
}
