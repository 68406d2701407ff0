// model/specs/Sweep: the fixed notice table, walked in order.
#![tactic(auto)]

mod notice_table;

ghost use Rattle.std.specs.Prelude.{◌≡◌};
ghost use Rattle.model.specs.Answers.{packed};
ghost use Rattle.model.specs.Served.{listed};
ghost use Rattle.model.specs.Sweep.{notice_table, table_notices};

use notice_table::PENDING_ATTRS;
use records::{Config, Notices};

pub fn is_pending(pending: u16, bit: u16) -> bool
    ensures { result ≡ listed pending bit }
{
    served::listed(pending as u64, bit)
}

#[tactic(auto, using(crate::proofs::NoticeTable::from_row, crate::proofs::NoticeTable::past_rows, model::proofs::Packing::push_none, model::proofs::Packing::push_all_append), unfolding(model::specs::Sweep::row_notices, model::specs::Answers::only_if, model::specs::Answers::packed))]
pub fn notify_pending(cfg: Config, pending: u16) -> Notices
    ensures { result ≡ packed (table_notices cfg pending notice_table) }
{
    let mut n = Notices::none();
    for stored in PENDING_ATTRS {
        let row = notice_table::row_of(stored);
        if is_pending(pending, row.bit) {
            n = answers::notify(cfg, n, row.code);
        }
    }
    n
}
