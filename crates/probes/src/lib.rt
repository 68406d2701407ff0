// specs/Probes (C-18): what a probe delivers, as a reading of a call.
#![tactic(auto)]

mod degrees;

ghost use Rattle.std.specs.Prelude.{◌≡◌};
ghost use Rattle.probes.specs.Probes.{temperature_of, readings_of};

use records::{Probe, Readings};
use units::Hundredths;

pub fn temperature_of(probe: Probe) -> Option<Hundredths>
    ensures { result ≡ temperature_of probe }
{
    match probe {
        Probe::Absent | Probe::Fault(_) => None,
        Probe::Degrees(x) => degrees::of_degrees(x),
    }
}

// The readings of a call, their temperature from a probe. All other fields are parameters, as in the definition.
pub fn readings_of(
    probe: Probe,
    relaysbefore: u16,
    relaysafter: u16,
    hook: Option<u32>,
    node: Option<u32>,
    clock: u64,
) -> Readings
    ensures { result ≡ readings_of probe relaysbefore relaysafter hook node clock }
{
    Readings {
        relaysbefore,
        relaysafter,
        temperature: temperature_of(probe),
        hook,
        node,
        clock,
    }
}
