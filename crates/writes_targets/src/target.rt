// The plan that sends a side's setpoint to a target, for a rule that both sides have.
ghost use Rattle.std.specs.Prelude.{◌≡◌};
ghost use Rattle.model.specs.Plans as spec;
ghost use Rattle.records.specs.declared.Plan.{Plan};
ghost use Rattle.records.specs.declared.Settings.{Settings};
ghost use Rattle.records.specs.declared.Stored.{Stored};
ghost use Rattle.units.specs.declared.Hundredths.{Hundredths};

use limits::{Cooling, Heating, Side};
use records::{Plan, Settings, Stored};
use units::Hundredths;

pub trait Target: Side {
    ghost planned_to: { Settings → Stored → Hundredths → Plan };

    fn plan_to(s: Settings, stored: Stored, v: Hundredths) -> Plan
        ensures { result ≡ planned_to s stored v };
}

impl Target for Heating {
    ghost planned_to = { spec.heating_to };

    fn plan_to(s: Settings, stored: Stored, v: Hundredths) -> Plan {
        crate::heating_to(s, stored, v)
    }
}

impl Target for Cooling {
    ghost planned_to = { spec.cooling_to };

    fn plan_to(s: Settings, stored: Stored, v: Hundredths) -> Plan {
        crate::cooling_to(s, stored, v)
    }
}
