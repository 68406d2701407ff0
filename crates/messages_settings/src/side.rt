// What a setpoint message needs to know of its side beside what `limits` knows of it.
ghost use Rattle.std.specs.Prelude.{◌≡◌, ℕ};
ghost use Rattle.model.specs.Removed.{heating_alone, cooling_alone};
ghost use Rattle.records.specs.declared.Removed.{Removed};
ghost use Rattle.units.specs.declared.Wide.{Wide};

use limits::{Cooling, Heating, Side};
use records::{Removed, pending_mask};
use units::Wide;

pub trait MessageSide: Side {
    // The pending bit of the side's setpoint.
    ghost mask: { ℕ };

    // The amount of this side, and none of the other.
    ghost alone: { Wide → Removed };

    fn pending_mask() -> u16
        ensures { result ≡ mask };

    fn removed_alone(w: Wide) -> Removed
        ensures { result ≡ alone w };
}

impl MessageSide for Heating {
    ghost mask = { 0x002 };

    ghost alone = { heating_alone };

    fn pending_mask() -> u16 {
        pending_mask::OCCUPIED_HEATING_SETPOINT
    }

    fn removed_alone(w: Wide) -> Removed {
        Removed {
            heating: w,
            ..Removed::NOTHING
        }
    }
}

impl MessageSide for Cooling {
    ghost mask = { 0x004 };

    ghost alone = { cooling_alone };

    fn pending_mask() -> u16 {
        pending_mask::OCCUPIED_COOLING_SETPOINT
    }

    fn removed_alone(w: Wide) -> Removed {
        Removed {
            cooling: w,
            ..Removed::NOTHING
        }
    }
}
