// What C and Rust link, through crate embedding_c: functions over plain numbers.
#![tactic(auto)]

ghost use Rattle.std.specs.Prelude.{◌≡◌};
ghost use Rattle.probes.specs.Probes.{temperature_of};
ghost use Rattle.embedding.specs.Numbers.{in_numbers};

use records::Probe;
use units::Hundredths;

// A nullable temperature: null where `given` is 0, else it is 1. There is no gap in it, so every byte has a value.
// C has no Option, so the flag stands beside the value.
#[repr(C)]
#[derive(Clone, Copy)]
pub struct NullableTemperature {
    pub hundredths: Hundredths,
    pub given: u16,
}

impl From<Option<Hundredths>> for NullableTemperature {
    ghost use Rattle.embedding.specs.Numbers.{in_numbers};

    ghost from_gives = { λ t n. n ≡ in_numbers t };

    fn from(t: Option<Hundredths>) -> NullableTemperature {
        NullableTemperature {
            hundredths: t.unwrap_or(Hundredths::ZERO),
            given: t.is_some().into(),
        }
    }
}

// C-18: what a probe's degrees give.
pub fn thermostat_probe_degrees(degrees: f32) -> NullableTemperature
    ensures { result ≡ in_numbers (temperature_of (Probe.Degrees degrees)) }
{
    probes::temperature_of(Probe::Degrees(degrees)).into()
}
