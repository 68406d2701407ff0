// model/specs/Sound: row 28, what every record has that an opening or a call leaves.
#![tactic(auto)]

ghost use Rattle.std.specs.Prelude.{◌≡◌, not, ◌&&◌, ◌||◌};
ghost use Rattle.units.specs.Units.{within};
ghost use Rattle.model.specs.Sound as spec;

use limits::{Cooling, Heating, Side};
use records::{Config, Controller, Settings};
use units::Hundredths;

// Served limits: ABS minimum, minimum, maximum, ABS maximum in order.
fn in_order(absmin: Hundredths, min: Hundredths, max: Hundredths, absmax: Hundredths) -> bool
    ensures { result ≡ within min absmin max && within max min absmax }
{
    units_ranges::is_within(min, absmin, max) && units_ranges::is_within(max, min, absmax)
}

// Of each side, under the names of the definitions.
#[tactic(auto, unfolding(model::specs::Sound::sound_heat_limits))]
fn sound_heat_limits(cfg: Config, s: Settings) -> bool
    ensures { result ≡ spec.sound_heat_limits cfg s }
{
    !served::has_heat_limits(cfg) || in_order(cfg.absminheat, s.minheat, s.maxheat, cfg.absmaxheat)
}

#[tactic(auto, unfolding(model::specs::Sound::sound_cool_limits))]
fn sound_cool_limits(cfg: Config, s: Settings) -> bool
    ensures { result ≡ spec.sound_cool_limits cfg s }
{
    !served::has_cool_limits(cfg) || in_order(cfg.absmincool, s.mincool, s.maxcool, cfg.absmaxcool)
}

#[tactic(auto, unfolding(model::specs::Sound::sound_gap))]
fn sound_gap(cfg: Config, s: Settings) -> bool
    ensures { result ≡ spec.sound_gap cfg s }
{
    let band = limits::dead_band(cfg);
    !(served::auto(cfg) && served::has_heat_limits(cfg))
        || !units::is_above(s.minheat, (s.mincool - band).wide)
            && !units::is_above(s.maxheat, (s.maxcool - band).wide)
}

// A served setpoint within its limits in force.
fn sound_setpoint<S: Side>(cfg: Config, s: Settings) -> bool
    ensures { result ≡ not (S.present cfg) || within (S.stored s) (S.least cfg s) (S.greatest cfg s) }
{
    !S::is_served(cfg) || limits::in_limits::<S>(cfg, s, S::setpoint(s))
}

#[tactic(auto, unfolding(model::specs::Sound::sound_settings, model::specs::Sound::sound_heating, model::specs::Sound::sound_cooling, model::specs::Limits::in_heat_limits, model::specs::Limits::in_cool_limits))]
fn sound_settings(cfg: Config, s: Settings) -> bool
    ensures { result ≡ spec.sound_settings cfg s }
{
    sound_heat_limits(cfg, s)
        && sound_cool_limits(cfg, s)
        && sound_gap(cfg, s)
        && sound_setpoint::<Heating>(cfg, s)
        && sound_setpoint::<Cooling>(cfg, s)
        && modes::is_supported_system_mode(cfg, s.mode)
}

fn sound_last(last: Option<u64>) -> bool
    ensures { result ≡ spec.sound_last last }
{
    match last {
        None => true,
        Some(t) => t <= Controller::LAST_CLOCK,
    }
}

#[tactic(auto, unfolding(model::specs::Sound::sound))]
pub fn is_sound(cfg: Config, r: Controller) -> bool
    ensures { result ≡ spec.sound cfg r }
{
    validation_acceptance::is_accepted(cfg)
        && sound_settings(cfg, r.attrs.settings)
        && sound_last(r.events.last)
}
