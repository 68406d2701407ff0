// model/specs/FactoryReset: return to works settings.
#![tactic(auto)]

ghost use Rattle.std.specs.Prelude.{◌≡◌};
ghost use Rattle.model.specs.Answers.{answer_with};
ghost use Rattle.model.specs.FactoryReset.{factory_reset, defaults_taken};
ghost use Rattle.model.specs.Removed.{repair_removed};

use records::{Answer, AttributeId, Config, Controller, Notices};

// The mark is cleared behind repair, which may set it; one notice, for the whole cluster.
#[tactic(auto, unfolding(model::specs::FactoryReset::factory_reset, model::specs::Answers::packed, model::specs::Answers::push_all))]
pub fn factory_reset(cfg: Config, r: Controller) -> Answer
    ensures { result ≡ answer_with (factory_reset cfg r) (repair_removed cfg (defaults_taken cfg r.attrs)) }
{
    let a = records::update_attrs(r.attrs, cfg.defaults);
    let mut q = repair_records::repair_record(cfg, r, a);
    q.rec.attrs.dirty = false;
    q.notices = answers::push(Notices::none(), AttributeId::WholeCluster as u16);
    q
}
