// The calls of the load, drawn from a seed. Each field takes the next seed.
ghost use Rattle.std.specs.Prelude.{◌≡◌, ◌<◌};
ghost use Rattle.load.specs.Draws.{next_of, field_of, setpoint_of, amount_of, raise_of, limits_of, draw_of};

use records::{Call, OutOfBandMessage};
use units::{Hundredths, Tenths};

// A call, and the last seed it took.
#[derive(Clone, Copy)]
pub struct Drawn {
    pub seed: u32,
    pub call: Call,
}

fn next(s: u32) -> u32
    ensures { result ≡ next_of s }
{
    s.wrapping_mul(1664525).wrapping_add(1013904223)
}

fn field(s: u32, n: u32) -> u32
    requires { 0 < n }
    ensures { (result ≡ field_of s n) × (result < n) }
{
    (s >> 16) % n
}

fn setpoint(s: u32) -> Hundredths
    ensures { result ≡ setpoint_of s }
{
    Hundredths((500 + field(s, 3000)) as i16)
}

fn amount(s: u32) -> Tenths
    ensures { result ≡ amount_of s }
{
    Tenths((field(s, 41) as i8) - 20)
}

#[tactic(auto, unfolding(crate::specs::Draws::raise_of))]
fn raise(s: u32) -> Drawn
    ensures { result ≡ raise_of s }
{
    let t = next(s);
    let u = next(t);
    Drawn {
        seed: u,
        call: Call::RaiseLowerSetpoint(field(t, 4) as u8, amount(u)),
    }
}

#[tactic(auto, unfolding(crate::specs::Draws::limits_of))]
fn limits(s: u32) -> Drawn
    ensures { result ≡ limits_of s }
{
    let t = next(s);
    let u = next(t);
    let v = next(u);
    let w = next(v);
    Drawn {
        seed: w,
        call: Call::OutOfBand(OutOfBandMessage::SetpointLimits(
            setpoint(t),
            setpoint(u),
            setpoint(v),
            setpoint(w),
        )),
    }
}

// The kind first, a number as the oracle's load draws it, then its fields.
#[tactic(auto, unfolding(crate::specs::Draws::draw_of, crate::specs::Draws::heating_of, crate::specs::Draws::cooling_of, crate::specs::Draws::mode_of))]
pub(crate) fn draw(s: u32) -> Drawn
    ensures { result ≡ draw_of s }
{
    let t = next(s);
    let u = next(t);
    let call = match field(t, 5) {
        0 => Call::WriteOccupiedHeatingSetpoint(setpoint(u)),
        1 => Call::WriteOccupiedCoolingSetpoint(setpoint(u)),
        2 => Call::WriteSystemMode(field(u, 10) as u8),
        3 => return raise(t),
        _ => return limits(t),
    };
    Drawn { seed: u, call }
}
