// model/specs/Temperature: significance, the 60-second interval, LTNE.
#![tactic(auto)]

ghost use Rattle.std.specs.Prelude.{◌≡◌};
ghost use Rattle.units.specs.Units.{apart};
ghost use Rattle.model.specs.Temperature.{significant, interval_over, event_due, reported_temperature};

use records::{Config, Controller};
use units::Hundredths;

// Whether two numbers differ by at least `d`.
#[tactic(auto, unfolding(units::specs::Units::apart))]
fn are_apart(a: Hundredths, b: Hundredths, d: Hundredths) -> bool
    ensures { result ≡ apart a b d }
{
    !units::is_above(d, units_ranges::max((a - b).wide, (b - a).wide))
}

pub fn local_temperature_change_significant(
    previous: Option<Hundredths>,
    current: Option<Hundredths>,
    delta: Hundredths,
) -> bool
    ensures { result ≡ significant previous current delta }
{
    match (previous, current) {
        (None, None) => false,
        (Some(a), Some(b)) => are_apart(a, b, delta),
        _ => true,
    }
}

// A clock gone back counts as 0 ms.
fn is_interval_over(last: Option<u64>, now: u64) -> bool
    ensures { result ≡ interval_over last now }
{
    match last {
        None => true,
        Some(t) => Controller::EVENT_INTERVAL <= now.saturating_sub(t),
    }
}

#[tactic(auto, unfolding(model::specs::Temperature::event_due))]
pub fn local_temperature_event_due(
    previous: Option<Hundredths>,
    current: Option<Hundredths>,
    delta: Hundredths,
    last: Option<u64>,
    now: u64,
) -> bool
    ensures { result ≡ event_due previous current delta last now }
{
    local_temperature_change_significant(previous, current, delta) && is_interval_over(last, now)
}

#[tactic(auto, unfolding(model::specs::Temperature::reported_temperature))]
pub fn reported_local_temperature(cfg: Config, reading: Option<Hundredths>) -> Option<Hundredths>
    ensures { result ≡ reported_temperature cfg reading }
{
    if served::local_temperature_not_exposed(cfg) {
        return None;
    }
    reading
}
