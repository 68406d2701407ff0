// The static library out/libembedding_c.a, by `rt lib`: an export for each function of crate embedding, with its contract.
#![tactic(auto)]

ghost use Rattle.std.specs.Prelude.{◌≡◌};
ghost use Rattle.probes.specs.Probes.{temperature_of};
ghost use Rattle.embedding.specs.Numbers.{in_numbers};

use embedding::NullableTemperature;
use records::Probe;

// C-18: what a probe's degrees give.
#[unsafe(no_mangle)]
pub extern "C" fn thermostat_probe_degrees(degrees: f32) -> NullableTemperature
    ensures { result ≡ in_numbers (temperature_of (Probe.Degrees degrees)) }
{
    embedding::thermostat_probe_degrees(degrees)
}
