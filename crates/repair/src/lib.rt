// model/specs/Repair and Removed: each step by itself, on the settings with their dirty mark.
#![tactic(auto)]

ghost use Rattle.std.specs.Prelude.{◌≡◌, ◌&&◌, cond};
ghost use Rattle.units.specs.Units.{widened, greater, clamped, amount_removed};
ghost use Rattle.records.specs.Records.{updated, zero_wide};
ghost use Rattle.model.specs.Served.{auto, has_heat_limits};
ghost use Rattle.model.specs.Repair as spec;
ghost use Rattle.model.specs.Removed.{setpoints_removed, repair_removed};
ghost use Rattle.repair.specs.Pushed.{push_removed};

use limits::{Cooling, Heating, Side};
use records::{Attrs, Config, Removed, Settings, system_mode};
use units::{Clamped, Sum, Wide};

// The settings after a clamp of one setpoint, and the amount that it removed.
#[derive(Clone, Copy)]
struct ClampedSetpoint {
    attrs: Attrs,
    removed: Wide,
}

// The settings after repair, and the amounts that its first clamps removed (C-12).
#[derive(Clone, Copy)]
pub struct Repaired {
    pub attrs: Attrs,
    pub removed: Removed,
}

// A step's store, where the step applies.
fn update_if(applies: bool, a: Attrs, s: Settings) -> Attrs
    ensures { result ≡ cond applies (updated a s) a }
{
    if applies {
        return records::update_attrs(a, s);
    }
    a
}

// The limits' steps differ in field, bounds and test: one generic function would need a trait of more members than they have lines.
#[tactic(auto, unfolding(model::specs::Repair::clamp_min_heat))]
fn clamp_min_heat(cfg: Config, a: Attrs) -> Attrs
    ensures { result ≡ spec.clamp_min_heat cfg a }
{
    let mut s = a.settings;
    s.minheat = units_ranges::clamp(s.minheat.into(), cfg.absminheat, cfg.absmaxheat).given;
    update_if(served::has_heat_limits(cfg), a, s)
}

#[tactic(auto, unfolding(model::specs::Repair::clamp_max_heat))]
fn clamp_max_heat(cfg: Config, a: Attrs) -> Attrs
    ensures { result ≡ spec.clamp_max_heat cfg a }
{
    let mut s = a.settings;
    s.maxheat = units_ranges::clamp(s.maxheat.into(), s.minheat, cfg.absmaxheat).given;
    update_if(served::has_heat_limits(cfg), a, s)
}

#[tactic(auto, unfolding(model::specs::Repair::clamp_min_cool))]
fn clamp_min_cool(cfg: Config, a: Attrs) -> Attrs
    ensures { result ≡ spec.clamp_min_cool cfg a }
{
    let mut s = a.settings;
    s.mincool = units_ranges::clamp(s.mincool.into(), cfg.absmincool, cfg.absmaxcool).given;
    update_if(served::has_cool_limits(cfg), a, s)
}

#[tactic(auto, unfolding(model::specs::Repair::clamp_max_cool))]
fn clamp_max_cool(cfg: Config, a: Attrs) -> Attrs
    ensures { result ≡ spec.clamp_max_cool cfg a }
{
    let mut s = a.settings;
    s.maxcool = units_ranges::clamp(s.maxcool.into(), s.mincool, cfg.absmaxcool).given;
    update_if(served::has_cool_limits(cfg), a, s)
}

fn pulls_heat_limits(cfg: Config) -> bool
    ensures { result ≡ auto cfg && has_heat_limits cfg }
{
    served::auto(cfg) && served::has_heat_limits(cfg)
}

#[tactic(auto, unfolding(model::specs::Repair::pull_min_heat))]
fn pull_min_heat(cfg: Config, a: Attrs) -> Attrs
    ensures { result ≡ spec.pull_min_heat cfg a }
{
    let mut s = a.settings;
    let w = s.mincool - limits::dead_band(cfg);
    s.minheat = units_ranges::clamp(w, cfg.absminheat, s.minheat).given;
    update_if(pulls_heat_limits(cfg), a, s)
}

#[tactic(auto, unfolding(model::specs::Repair::pull_max_heat))]
fn pull_max_heat(cfg: Config, a: Attrs) -> Attrs
    ensures { result ≡ spec.pull_max_heat cfg a }
{
    let mut s = a.settings;
    let w = s.maxcool - limits::dead_band(cfg);
    s.maxheat = units_ranges::clamp(w, s.minheat, s.maxheat).given;
    update_if(pulls_heat_limits(cfg), a, s)
}

// A clamped setpoint is stored; the amount that the clamp removed is handed on.
fn store_setpoint<S: Side>(a: Attrs, c: Clamped) -> ClampedSetpoint
    ensures { (result.attrs ≡ updated a (S.storing a.settings c.given)) × (result.removed ≡ c.removed) }
{
    ClampedSetpoint {
        attrs: records::update_attrs(a, S::with_setpoint(a.settings, c.given)),
        removed: c.removed,
    }
}

fn clamp_setpoint<S: Side>(cfg: Config, a: Attrs) -> ClampedSetpoint
    ensures attrs { result.attrs ≡ cond (S.present cfg) (updated a (S.storing a.settings (clamped (widened (S.stored a.settings)) (S.least cfg a.settings) (S.greatest cfg a.settings)))) a }
    ensures removed { result.removed ≡ cond (S.present cfg) (amount_removed (widened (S.stored a.settings)) (S.least cfg a.settings) (S.greatest cfg a.settings)) zero_wide }
{
    if S::is_served(cfg) {
        let v = Sum::from(S::setpoint(a.settings));
        return store_setpoint::<S>(a, limits::clamp_setpoint::<S>(cfg, a.settings, v));
    }
    ClampedSetpoint {
        attrs: a,
        removed: Wide::ZERO,
    }
}

// The greater of two sums is a sum. `units_ranges::max` gives its number alone.
#[tactic(auto, unfolding(units::specs::Units::greater, integers::specs::Clamp::max_z))]
fn greater(a: Sum, b: Sum) -> Sum
    ensures { result.wide ≡ greater a.wide b.wide }
{
    a.max(b)
}

#[tactic(auto, unfolding(model::specs::Repair::push_cooling))]
fn push_cooling(cfg: Config, a: Attrs) -> ClampedSetpoint
    ensures { (result.attrs ≡ spec.push_cooling cfg a) × (result.removed ≡ push_removed cfg a.settings) }
{
    if served::auto(cfg) {
        let s = a.settings;
        let v = greater(Sum::from(s.cooling), s.heating + limits::dead_band(cfg));
        return store_setpoint::<Cooling>(a, limits::clamp_cool_setpoint(cfg, s, v));
    }
    ClampedSetpoint {
        attrs: a,
        removed: Wide::ZERO,
    }
}

#[tactic(auto, unfolding(model::specs::Repair::repair_mode))]
fn repair_mode(cfg: Config, a: Attrs) -> Attrs
    ensures { result ≡ spec.repair_mode cfg a }
{
    if modes::is_supported_system_mode(cfg, a.settings.mode) {
        return a;
    }
    let mut s = a.settings;
    s.mode = system_mode::OFF;
    records::update_attrs(a, s)
}

#[tactic(auto, unfolding(model::specs::Repair::repair_limits))]
fn repair_limits(cfg: Config, a: Attrs) -> Attrs
    ensures { result ≡ spec.repair_limits cfg a }
{
    let b = clamp_max_heat(cfg, clamp_min_heat(cfg, a));
    let c = clamp_max_cool(cfg, clamp_min_cool(cfg, b));
    pull_max_heat(cfg, pull_min_heat(cfg, c))
}

// Its amounts are those of the first clamps: the push cuts nothing (C-12). thermostat.rs then pulls heating down where cooling's limits leave no room;
// on an accepted configuration they always do (C-24).
#[tactic(auto, unfolding(model::specs::Repair::repair_setpoints, model::specs::Repair::clamp_heating, model::specs::Repair::clamp_cooling, model::specs::Removed::heating_removed, model::specs::Removed::cooling_removed, model::specs::Limits::clamp_heat_setpoint, model::specs::Limits::clamp_cool_setpoint, model::specs::Limits::heat_removed, model::specs::Limits::cool_removed))]
fn repair_setpoints(cfg: Config, a: Attrs) -> Repaired
    ensures { (result.attrs ≡ spec.repair_setpoints cfg a) × (result.removed ≡ setpoints_removed cfg a) }
{
    let h = clamp_setpoint::<Heating>(cfg, a);
    let c = clamp_setpoint::<Cooling>(cfg, h.attrs);
    let p = push_cooling(cfg, c.attrs);
    Repaired {
        attrs: p.attrs,
        removed: Removed {
            heating: h.removed,
            cooling: c.removed,
        },
    }
}

#[tactic(auto, unfolding(model::specs::Repair::repaired, model::specs::Removed::repair_removed))]
pub fn repair(cfg: Config, a: Attrs) -> Repaired
    ensures { (result.attrs ≡ spec.repaired cfg a) × (result.removed ≡ repair_removed cfg a) }
{
    let r = repair_setpoints(cfg, repair_limits(cfg, a));
    Repaired {
        attrs: repair_mode(cfg, r.attrs),
        removed: r.removed,
    }
}
