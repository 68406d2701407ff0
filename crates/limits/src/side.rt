// A side, heating or cooling: what a rule that both have needs to know of it.
ghost use Rattle.std.specs.Prelude.{◌≡◌, Bool};
ghost use Rattle.model.specs.Served.{heats, cools};
ghost use Rattle.model.specs.Limits.{min_heat_setpoint, max_heat_setpoint, min_cool_setpoint, max_cool_setpoint};
ghost use Rattle.records.specs.Records.{with_heating, with_cooling};
ghost use Rattle.records.specs.declared.Config.{Config};
ghost use Rattle.records.specs.declared.Settings.{Settings};
ghost use Rattle.units.specs.declared.Hundredths.{Hundredths};

use records::{Config, Settings};
use units::Hundredths;

pub trait Side {
    // Whether the configuration's features have the side.
    ghost present: { Config → Bool };

    // The side's setpoint, and settings with another one.
    ghost stored: { Settings → Hundredths };

    ghost storing: { Settings → Hundredths → Settings };

    // The limits in force.
    ghost least: { Config → Settings → Hundredths };

    ghost greatest: { Config → Settings → Hundredths };

    fn is_served(cfg: Config) -> bool
        ensures { result ≡ present cfg };

    fn setpoint(s: Settings) -> Hundredths
        ensures { result ≡ stored s };

    fn with_setpoint(s: Settings, v: Hundredths) -> Settings
        ensures { result ≡ storing s v };

    fn min_setpoint(cfg: Config, s: Settings) -> Hundredths
        ensures { result ≡ least cfg s };

    fn max_setpoint(cfg: Config, s: Settings) -> Hundredths
        ensures { result ≡ greatest cfg s };
}

pub struct Heating;

pub struct Cooling;

impl Side for Heating {
    ghost present = { heats };

    ghost stored = { λ s. s.heating };

    ghost storing = { with_heating };

    ghost least = { min_heat_setpoint };

    ghost greatest = { max_heat_setpoint };

    fn is_served(cfg: Config) -> bool {
        served::heats(cfg)
    }

    fn setpoint(s: Settings) -> Hundredths {
        s.heating
    }

    fn with_setpoint(s: Settings, v: Hundredths) -> Settings {
        Settings { heating: v, ..s }
    }

    fn min_setpoint(cfg: Config, s: Settings) -> Hundredths {
        crate::min_heat_setpoint(cfg, s)
    }

    fn max_setpoint(cfg: Config, s: Settings) -> Hundredths {
        crate::max_heat_setpoint(cfg, s)
    }
}

impl Side for Cooling {
    ghost present = { cools };

    ghost stored = { λ s. s.cooling };

    ghost storing = { with_cooling };

    ghost least = { min_cool_setpoint };

    ghost greatest = { max_cool_setpoint };

    fn is_served(cfg: Config) -> bool {
        served::cools(cfg)
    }

    fn setpoint(s: Settings) -> Hundredths {
        s.cooling
    }

    fn with_setpoint(s: Settings, v: Hundredths) -> Settings {
        Settings { cooling: v, ..s }
    }

    fn min_setpoint(cfg: Config, s: Settings) -> Hundredths {
        crate::min_cool_setpoint(cfg, s)
    }

    fn max_setpoint(cfg: Config, s: Settings) -> Hundredths {
        crate::max_cool_setpoint(cfg, s)
    }
}
