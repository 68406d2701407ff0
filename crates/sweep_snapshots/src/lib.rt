// model/specs/Sweep: the snapshot of what the events report, starting, and when two snapshots are equal.
#![tactic(auto)]

ghost use Rattle.std.specs.Prelude.{◌≡◌};
ghost use Rattle.model.specs.Sweep as spec;

use records::{Config, Controller, Readings, Snapshot};

// What the events report, now.
#[tactic(auto, unfolding(model::specs::Sweep::snapshot_of))]
pub fn snapshot(cfg: Config, d: Readings, r: Controller) -> Snapshot
    ensures { result ≡ spec.snapshot_of cfg d r }
{
    let reported = temperature::reported_local_temperature(cfg, d.temperature);
    let relays = modes::running_state(cfg, d.relaysbefore);
    let mode = modes::running_mode(relays);
    Snapshot::current(reported, r.attrs.settings, relays, mode)
}

#[tactic(auto, unfolding(model::specs::Sweep::started))]
pub fn start(cfg: Config, d: Readings, r: Controller) -> Controller
    ensures { result ≡ spec.started cfg d r }
{
    let q = r.first_snapshot(snapshot(cfg, d, r));
    attribution::claim_setpoints(cfg, q)
}

// Under the definition's name; the equality is the derived one.
#[tactic(auto, unfolding(model::specs::Sweep::same_snapshot, units::specs::Units::equal))]
pub fn is_same_snapshot(a: Snapshot, b: Snapshot) -> bool
    ensures { result ≡ spec.same_snapshot a b }
{
    a == b
}
