// What a message asks for: the settings it leaves, the pending bits it sets and the amounts it removes, beside its number and plant order.
#![tactic(auto)]

ghost use Rattle.std.specs.Prelude.{◌≡◌};
ghost use Rattle.std.specs.Int.Bits.{bit_or};
ghost use Rattle.records.specs.Records.{with_pending};
ghost use Rattle.model.specs.Answers.{quiet};
ghost use Rattle.model.specs.Messages as spec;
ghost use Rattle.messages_taken.specs.Taken.{Takes};

use records::{Answer, Attrs, PlantOrder, Removed, pending_mask};

// What a message takes is said against the settings before it (`Takes`), which an invariant could not name. `number` is the answer's: a refusal has settings and bits here too, so this is no Result.
#[derive(Clone, Copy)]
pub struct Taken {
    pub number: u8,
    pub attrs: Attrs,
    pub bits: u16,
    pub order: Option<PlantOrder>,
    pub removed: Removed,
}

// No plant order.
pub fn quiet_taken(number: u8, a: Attrs, bits: u16, x: Removed) -> Taken
    ensures { Takes a (λ r. quiet number (with_pending r (bit_or r.pending bits))) x result }
{
    Taken {
        number: number,
        attrs: a,
        bits: bits,
        order: None,
        removed: x,
    }
}

// Every accepted message asks for a sweep too.
pub fn take(a: Attrs, bits: u16, x: Removed) -> Taken
    ensures { Takes a (λ r. quiet 0 (spec.raise_bits r bits)) x result }
{
    quiet_taken(Answer::DONE, a, bits | pending_mask::EVENT_SWEEP, x)
}
