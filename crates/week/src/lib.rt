// model/specs/Week and Plans (C-15): the mill's week, and the plan of an hour.
#![tactic(auto)]

mod week_table;

ghost use Rattle.std.specs.Prelude.{◌≡◌};
ghost use Rattle.model.specs.Plans.{plan_hour};
ghost use Rattle.model.specs.Week.{mill_week, hour_before};

use records::{AttributeId, ChangeSource, Config, Plan, Refusal, Settings, Stored};
use units::Sum;
use week_table::LAST_HOUR;

// Hour 167 precedes hour 0.
fn hour_before(hour: usize) -> usize
    ensures { result ≡ hour_before hour }
{
    if hour == 0 { LAST_HOUR } else { hour - 1 }
}

// An hour acts where its entry differs from the hour before's; one that does not act is no write.
#[tactic(auto, using(model::proofs::Logic::by_cond), unfolding(model::specs::Plans::plan_hour, model::specs::Plans::planned_unless, model::specs::Week::acts, records::specs::Refusals::number, units::specs::Units::equal))]
pub fn hour(cfg: Config, s: Settings, number: u8) -> Option<Plan>
    ensures { result ≡ plan_hour mill_week cfg s number }
{
    let hour = number as usize;
    if LAST_HOUR < hour {
        return Some(writes_targets::refusal(s, Refusal::HourOutsideWeek.into()));
    }
    if !served::serves(cfg, AttributeId::OccupiedHeatingSetpoint as u16) {
        return Some(writes_targets::refusal(s, Refusal::UnservedAttribute.into()));
    }
    let before = week_table::entry(hour_before(hour));
    let v = week_table::entry(hour);
    if before == v {
        return None;
    }
    let target = limits::clamp_heat_setpoint(cfg, s, Sum::from(v)).given;
    let p = writes_targets::heating_to(s, Stored::Nothing, target);
    Some(writes_targets::from_source(p, ChangeSource::Schedule as u8))
}
