// model/specs/Sweep and LocalChange: a local setpoint change is attributed.
#![tactic(auto)]

ghost use Rattle.std.specs.Prelude.{◌≡◌};
ghost use Rattle.model.specs.Answers.{push_all};
ghost use Rattle.model.specs.LocalChange.{local_change};
ghost use Rattle.model.specs.Writes.{source_notices};
ghost use Rattle.model.specs.Sweep as spec;
ghost use Rattle.sweep_local_changes.specs.Stages.{staged};

use records::{AttributeId, ChangeSource, Config, Controller, Notices, Readings, Setpoints};
use units::Hundredths;

// A record under way, with the notices so far.
#[derive(Clone, Copy)]
pub struct Stage {
    pub rec: Controller,
    pub notices: Notices,
}

// C-20: cooling's difference when both moved, else that of the side that moved. A side that is not served did not move.
#[tactic(auto, using(model::proofs::LocalChange::by_heating_alone, units::proofs::Comparisons::same))]
fn local_change(cfg: Config, old: Setpoints, new: Setpoints) -> Hundredths
    ensures { result ≡ local_change cfg old new }
{
    let heating = old.heating != new.heating;
    let cooling = old.cooling != new.cooling;
    let both = served::heats(cfg) && served::cools(cfg) && heating && cooling;
    if heating && !both {
        return units_ranges::saturating_sub(new.heating, old.heating);
    }
    units_ranges::saturating_sub(new.cooling, old.cooling)
}

// As in thermostat.rs; `writes_notices` has the three within one inlined function, so that a write copies no notices for them.
#[tactic(auto, using(model::proofs::Packing::push_all_append), unfolding(model::specs::Writes::source_notices))]
fn notify_source_attrs(cfg: Config, n: Notices) -> Notices
    ensures { result ≡ push_all n (source_notices cfg) }
{
    let a = answers::notify(cfg, n, AttributeId::SetpointChangeSource as u16);
    let b = answers::notify(cfg, a, AttributeId::SetpointChangeAmount as u16);
    answers::notify(cfg, b, AttributeId::SetpointChangeSourceTimestamp as u16)
}

fn record_local(
    cfg: Config,
    d: Readings,
    r: Controller,
    n: Notices,
    old: Setpoints,
    new: Setpoints,
) -> Stage
    ensures { result ≡ staged n (spec.local_recorded cfg d r old new) }
{
    let amount = local_change(cfg, old, new);
    let change = attribution::record(r.change, ChangeSource::Manual as u8, amount, d.hook);
    Stage {
        rec: Controller {
            change: attribution::attribute(change, Some(new)),
            ..r
        },
        notices: notify_source_attrs(cfg, n),
    }
}

// A change that no write claimed is the device's own: Manual. With no attributed pair yet it only claims.
#[tactic(auto, using(model::proofs::Packing::push_none, units::proofs::Comparisons::same), unfolding(model::specs::Sweep::attribute_local_setpoint_change))]
pub fn attribute_local_setpoint_change(cfg: Config, d: Readings, r: Controller, n: Notices) -> Stage
    ensures { result ≡ staged n (spec.attribute_local_setpoint_change cfg d r) }
{
    let pair = attribution::served_setpoints(cfg, r.attrs.settings);
    match (r.change.attributed, pair) {
        (Some(old), Some(new)) if old != new => record_local(cfg, d, r, n, old, new),
        (None, Some(_)) => Stage {
            rec: Controller {
                change: attribution::attribute(r.change, pair),
                ..r
            },
            notices: n,
        },
        _ => Stage { rec: r, notices: n },
    }
}
