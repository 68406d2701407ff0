// The service entry: it is lent the controller record, and leaves in it the record of the answer.
#![tactic(auto)]

ghost use Rattle.std.specs.Prelude.{◌≡◌};
ghost use Rattle.model.specs.Answers.{answer_with};
ghost use Rattle.model.specs.Removed.{removed};
ghost use Rattle.model.specs.Step.{step};

use records::{Answer, Call, Config, Controller, Readings};

pub fn serve(c: &mut Controller, cfg: Config, d: Readings, k: Call) -> Answer
    ensures { (result ≡ answer_with (step cfg c.old d k) (removed cfg c.old d k)) × (c.new ≡ (step cfg c.old d k).rec) }
{
    let a = controller::step(cfg, *c, d, k);
    *c = a.rec;
    a
}
