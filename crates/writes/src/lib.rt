// model/specs/Plans: a plan is carried out, here alone: stores with their dirty mark, gap, attribution, claim, notices, plant order, bit 9.
#![tactic(auto)]

ghost use Rattle.std.specs.Prelude.{◌≡◌, cond};
ghost use Rattle.model.specs.Answers.{answer_with};
ghost use Rattle.model.specs.Attribution.{armed_clock};
ghost use Rattle.model.specs.Plans as spec;

use records::{Answer, Attrs, Config, Controller, Plan, Readings, Settings, Sides, Stored};

fn with_stored(s: Settings, x: Stored) -> Settings
    ensures { result ≡ spec.with_stored s x }
{
    match x {
        Stored::Nothing => s,
        Stored::MinHeat(v) => Settings { minheat: v, ..s },
        Stored::MaxHeat(v) => Settings { maxheat: v, ..s },
        Stored::MinCool(v) => Settings { mincool: v, ..s },
        Stored::MaxCool(v) => Settings { maxcool: v, ..s },
        Stored::Mode(v) => Settings { mode: v, ..s },
    }
}

// The other side gives way to a single one, heating to both.
fn keep_gap(cfg: Config, t: Settings, sides: Sides) -> Settings
    ensures { result ≡ spec.gap_kept cfg t sides }
{
    match sides {
        Sides::Neither => t,
        Sides::Heating => Settings {
            cooling: writes_gaps::cooling_with_gap(cfg, t, t.heating),
            ..t
        },
        Sides::Cooling | Sides::Both => Settings {
            heating: writes_gaps::heating_with_gap(cfg, t, t.cooling),
            ..t
        },
    }
}

// By the targets or by the gap. The settings before, at the targets and behind the gap stay apart, here and in `writes_notices` and
// `writes_records`, as in the definitions.
#[tactic(auto, using(units::proofs::Comparisons::same), unfolding(model::specs::Plans::any_moved))]
fn has_any_moved(s: Settings, t: Settings, u: Settings) -> bool
    ensures { result ≡ spec.any_moved s t u }
{
    (s.heating != t.heating || s.cooling != t.cooling)
        || (t.heating != u.heating || t.cooling != u.cooling)
}

#[tactic(auto, using(crate::proofs::Performed::performed_answer), unfolding(model::specs::Plans::performed, model::specs::Plans::moved, model::specs::Answers::packed_events, model::specs::Answers::emit_all))]
fn perform(cfg: Config, d: Readings, r: Controller, p: Plan) -> Answer
    ensures { result ≡ answer_with (spec.performed cfg d r p) p.removed }
{
    let a = records::update_attrs(r.attrs, with_stored(r.attrs.settings, p.stored));
    let s = a.settings;
    let t = Settings {
        heating: p.heating,
        cooling: p.cooling,
        ..s
    };
    let u = keep_gap(cfg, t, p.sides);
    let w = Controller {
        attrs: Attrs {
            settings: u,
            dirty: a.dirty | has_any_moved(s, t, u),
        },
        change: writes_records::record_plan(cfg, d, p, s, t, u, r.change),
        ..r
    };
    let q = answers::ask_sweep(cfg, w);
    Answer {
        order: answers::order_of(u),
        notices: writes_notices::notify_all(cfg, d, p.stored, s, t, u),
        removed: p.removed,
        ..answers::quiet_answer(Answer::DONE, q)
    }
}

fn arm_if(arms: bool, cfg: Config, d: Readings, r: Controller) -> Controller
    ensures { result ≡ cond arms (armed_clock cfg d r) r }
{
    if arms {
        attribution::arm_clock(cfg, d, r)
    } else {
        r
    }
}

// Armed first, so a refusal keeps the newly armed clock.
#[tactic(auto, unfolding(model::specs::Plans::carried_out, model::specs::Plans::plan_removed))]
pub fn carry_out(cfg: Config, d: Readings, r: Controller, p: Plan) -> Answer
    ensures { result ≡ answer_with (spec.carried_out cfg d r p) (spec.plan_removed p) }
{
    let q = arm_if(p.arms, cfg, d, r);
    if p.number != Answer::DONE {
        return answers::quiet_answer(p.number, q);
    }
    perform(cfg, d, q, p)
}
