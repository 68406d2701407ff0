// model/specs/Plans: the notices of a plan carried out.
#![tactic(auto)]

ghost use Rattle.std.specs.Prelude.{◌≡◌, ◌++◌, not, eqb};
ghost use Rattle.model.specs.Answers.{packed, push_all, only_if};
ghost use Rattle.model.specs.Served.{noticed};
ghost use Rattle.model.specs.Modes.{running_state};
ghost use Rattle.model.specs.Plans as spec;
ghost use Rattle.model.specs.Writes.{relay_notices, source_notices};
ghost use Rattle.writes_notices.specs.Carried.{notices_of};

use records::{AttributeId, Config, Notices, Readings, Settings, Stored};

#[tactic(auto, using(model::proofs::Packing::push_none))]
fn notify_limit(cfg: Config, n: Notices, x: Stored) -> Notices
    ensures { result ≡ push_all n (spec.limit_notices cfg x) }
{
    match x {
        Stored::MinHeat(_) => answers::notify(cfg, n, AttributeId::MinHeatSetpointLimit as u16),
        Stored::MaxHeat(_) => answers::notify(cfg, n, AttributeId::MaxHeatSetpointLimit as u16),
        Stored::MinCool(_) => answers::notify(cfg, n, AttributeId::MinCoolSetpointLimit as u16),
        Stored::MaxCool(_) => answers::notify(cfg, n, AttributeId::MaxCoolSetpointLimit as u16),
        Stored::Nothing | Stored::Mode(_) => n,
    }
}

// A setpoint that moved to its target is noticed with its source, amount and timestamp. Not inlined, it copies the notices.
#[tactic(auto, using(model::proofs::Packing::push_all_append, model::proofs::Packing::push_none), unfolding(model::specs::Answers::only_if, model::specs::Writes::source_notices))]
#[inline]
fn notify_change(cfg: Config, n: Notices, moved: bool, code: u16) -> Notices
    ensures { result ≡ push_all n (only_if moved (noticed cfg code ++ source_notices cfg)) }
{
    if !moved {
        return n;
    }
    let a = answers::notify(cfg, n, code);
    let b = answers::notify(cfg, a, AttributeId::SetpointChangeSource as u16);
    let c = answers::notify(cfg, b, AttributeId::SetpointChangeAmount as u16);
    answers::notify(cfg, c, AttributeId::SetpointChangeSourceTimestamp as u16)
}

// One that the gap moved is noticed alone.
#[tactic(auto, using(model::proofs::Packing::push_all_append, units::proofs::Comparisons::same), unfolding(model::specs::Plans::move_notices))]
fn notify_moves(cfg: Config, n: Notices, s: Settings, t: Settings, u: Settings) -> Notices
    ensures { result ≡ push_all n (spec.move_notices cfg s t u) }
{
    let heating = s.heating != t.heating;
    let cooling = s.cooling != t.cooling;
    let heating_pushed = t.heating != u.heating;
    let cooling_pushed = t.cooling != u.cooling;
    let a = notify_change(cfg, n, heating, AttributeId::OccupiedHeatingSetpoint as u16);
    let b = notify_change(cfg, a, cooling, AttributeId::OccupiedCoolingSetpoint as u16);
    let c = answers::notify_if(
        cfg,
        b,
        heating_pushed,
        AttributeId::OccupiedHeatingSetpoint as u16,
    );
    answers::notify_if(
        cfg,
        c,
        cooling_pushed,
        AttributeId::OccupiedCoolingSetpoint as u16,
    )
}

fn have_relays_moved(cfg: Config, d: Readings) -> bool
    ensures { result ≡ not (eqb (running_state cfg d.relaysbefore) (running_state cfg d.relaysafter)) }
{
    let before = modes::running_state(cfg, d.relaysbefore);
    let after = modes::running_state(cfg, d.relaysafter);
    before != after
}

#[tactic(auto, using(model::proofs::Packing::push_all_append, model::proofs::Packing::push_none), unfolding(model::specs::Answers::only_if, model::specs::Writes::relay_notices))]
fn notify_relays(cfg: Config, n: Notices, d: Readings) -> Notices
    ensures { result ≡ push_all n (relay_notices cfg d) }
{
    if !have_relays_moved(cfg, d) {
        return n;
    }
    let m = answers::notify(cfg, n, AttributeId::ThermostatRunningState as u16);
    answers::notify(cfg, m, AttributeId::ThermostatRunningMode as u16)
}

#[tactic(auto, using(model::proofs::Packing::push_none))]
fn notify_mode(cfg: Config, n: Notices, x: Stored) -> Notices
    ensures { result ≡ push_all n (spec.mode_notices cfg x) }
{
    match x {
        Stored::Mode(_) => answers::notify(cfg, n, AttributeId::SystemMode as u16),
        Stored::Nothing
        | Stored::MinHeat(_)
        | Stored::MaxHeat(_)
        | Stored::MinCool(_)
        | Stored::MaxCool(_) => n,
    }
}

// The limit first, the mode last.
#[tactic(auto, using(model::proofs::Packing::push_all_append), unfolding(model::specs::Answers::packed))]
pub fn notify_all(
    cfg: Config,
    d: Readings,
    x: Stored,
    s: Settings,
    t: Settings,
    u: Settings,
) -> Notices
    ensures { result ≡ packed (notices_of cfg d x s t u) }
{
    let a = notify_limit(cfg, Notices::none(), x);
    let b = notify_moves(cfg, a, s, t, u);
    let c = notify_relays(cfg, b, d);
    notify_mode(cfg, c, x)
}
