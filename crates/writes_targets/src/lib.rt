// model/specs/Plans: where a write sends the setpoints, and what it stores beside them.
#![tactic(auto)]

mod target;

ghost use Rattle.std.specs.Prelude.{◌≡◌};
ghost use Rattle.model.specs.Plans as spec;

use records::{Answer, ChangeSource, Plan, Removed, Settings, Sides, Stored};
pub use target::Target;
use units::Hundredths;

// A limit or the mode, and no setpoint.
pub fn setting_alone(s: Settings, stored: Stored) -> Plan
    ensures { result ≡ spec.setting_alone s stored }
{
    Plan {
        stored: stored,
        heating: s.heating,
        cooling: s.cooling,
        sides: Sides::Neither,
        number: Answer::DONE,
        source: ChangeSource::External as u8,
        arms: false,
        removed: Removed::NOTHING,
    }
}

pub fn refusal(s: Settings, number: u8) -> Plan
    ensures { result ≡ spec.refusal s number }
{
    Plan {
        number: number,
        ..setting_alone(s, Stored::Nothing)
    }
}

// The same by another source.
pub fn from_source(p: Plan, source: u8) -> Plan
    ensures { result ≡ spec.from_source source p }
{
    Plan {
        source: source,
        ..p
    }
}

// Of each side, under the names and with the parameters of the definitions; `Target` has them for a rule of both.
pub fn heating_to(s: Settings, stored: Stored, v: Hundredths) -> Plan
    ensures { result ≡ spec.heating_to s stored v }
{
    Plan {
        heating: v,
        sides: Sides::Heating,
        ..setting_alone(s, stored)
    }
}

pub fn cooling_to(s: Settings, stored: Stored, v: Hundredths) -> Plan
    ensures { result ≡ spec.cooling_to s stored v }
{
    Plan {
        cooling: v,
        sides: Sides::Cooling,
        ..setting_alone(s, stored)
    }
}

pub fn both_to(h: Hundredths, c: Hundredths) -> Plan
    ensures { result ≡ spec.both_to h c }
{
    Plan {
        stored: Stored::Nothing,
        heating: h,
        cooling: c,
        sides: Sides::Both,
        number: Answer::DONE,
        source: ChangeSource::External as u8,
        arms: false,
        removed: Removed::NOTHING,
    }
}
