// model/specs/Plans: the attribution of a plan carried out. What moved to its target is recorded, then the pair claimed.
#![tactic(auto)]

ghost use Rattle.std.specs.Prelude.{◌≡◌};
ghost use Rattle.records.specs.Records.{changed_to};
ghost use Rattle.model.specs.Plans as spec;
ghost use Rattle.model.specs.Writes.{recorded_if};

use records::{Config, Plan, Readings, SetpointChangeState, Settings, Sides};
use units::Hundredths;

// A setpoint that moved is recorded.
#[tactic(auto, unfolding(model::specs::Writes::recorded_if, units::specs::Units::equal))]
fn record_move(
    d: Readings,
    source: u8,
    old: Hundredths,
    new: Hundredths,
    c: SetpointChangeState,
) -> SetpointChangeState
    ensures { result ≡ recorded_if (changed_to old new) d source old new c }
{
    if old == new {
        return c;
    }
    let amount = units_ranges::saturating_sub(new, old);
    attribution::record(c, source, amount, d.hook)
}

// Heating first: the first record takes the armed second.
#[tactic(auto, unfolding(model::specs::Plans::moves_recorded))]
fn record_moves(
    d: Readings,
    source: u8,
    s: Settings,
    t: Settings,
    c: SetpointChangeState,
) -> SetpointChangeState
    ensures { result ≡ spec.moves_recorded d source s t c }
{
    let first = record_move(d, source, s.heating, t.heating, c);
    record_move(d, source, s.cooling, t.cooling, first)
}

// A stored setpoint claims the pair, an equal one too.
fn claim_by(sides: Sides, cfg: Config, u: Settings, c: SetpointChangeState) -> SetpointChangeState
    ensures { result ≡ spec.claimed_by sides cfg u c }
{
    match sides {
        Sides::Neither => c,
        Sides::Heating | Sides::Cooling | Sides::Both => {
            attribution::attribute(c, attribution::served_setpoints(cfg, u))
        },
    }
}

// From the settings `s` to the targets `t`; the pair is claimed as the gap left it, `u`.
pub fn record_plan(
    cfg: Config,
    d: Readings,
    p: Plan,
    s: Settings,
    t: Settings,
    u: Settings,
    change: SetpointChangeState,
) -> SetpointChangeState
    ensures { result ≡ spec.claimed_by p.sides cfg u (spec.moves_recorded d p.source s t change) }
{
    let c = record_moves(d, p.source, s, t, change);
    claim_by(p.sides, cfg, u, c)
}
