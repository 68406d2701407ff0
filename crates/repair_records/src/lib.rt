// model/specs/Repair and Removed: repair of a record, as opening and reset make it.
#![tactic(auto)]

ghost use Rattle.std.specs.Prelude.{◌≡◌};
ghost use Rattle.model.specs.Answers.{answer_with};
ghost use Rattle.model.specs.Removed.{repair_removed};
ghost use Rattle.model.specs.Repair.{repaired_record};

use records::{Answer, Attrs, Config, Controller};

// No notices, whatever the relays do, and a plant order; the amounts are repair's.
pub fn repair_record(cfg: Config, r: Controller, a: Attrs) -> Answer
    ensures { result ≡ answer_with (repaired_record cfg r a) (repair_removed cfg a) }
{
    let f = repair::repair(cfg, a);
    let mut q = r;
    q.attrs = f.attrs;
    Answer {
        order: answers::order_of(f.attrs.settings),
        removed: f.removed,
        ..answers::quiet_answer(Answer::DONE, answers::ask_sweep(cfg, q))
    }
}
