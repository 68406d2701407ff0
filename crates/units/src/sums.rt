// A sum or a difference of two numbers of 16 bits: 17 bits hold it, so 32 hold it less a third one.
ghost use Rattle.std.specs.Prelude.{◌≡◌};
ghost use Rattle.integers.specs.Widths.{Bounded};

use crate::{Hundredths, Wide};
use std::ops::{Add, Sub};

#[derive(Clone, Copy, PartialEq, Eq, PartialOrd, Ord)]
pub struct Sum {
    pub wide: Wide,
    pub ghost bounded: { Bounded wide.0 },
}

// A number alone.
impl From<Hundredths> for Sum {
    ghost use Rattle.units.specs.Units.{widened};

    ghost from_gives = { λ a s. s.wide ≡ widened a };

    #[tactic(auto, using(integers::proofs::Widths::half_bounded), unfolding(crate::specs::Units::widened))]
    fn from(a: Hundredths) -> Sum {
        Sum { wide: a.into() }
    }
}

impl Add<Hundredths> for Hundredths {
    type Output = Sum;

    ghost use Rattle.units.specs.Units.{plus};

    ghost add_gives = { λ a b s. s.wide ≡ plus a b };

    #[tactic(auto, using(integers::proofs::Widths::sum_in_32, integers::proofs::Widths::sum_bounded), unfolding(crate::specs::Units::plus))]
    fn add(self, b: Hundredths) -> Sum {
        let x = i32::from(self.0);
        let y = i32::from(b.0);
        Sum { wide: Wide(x + y) }
    }
}

impl Sub<Hundredths> for Hundredths {
    type Output = Sum;

    ghost use Rattle.units.specs.Units.{minus};

    ghost sub_gives = { λ a b s. s.wide ≡ minus a b };

    #[tactic(auto, using(integers::proofs::Widths::diff_in_32, integers::proofs::Widths::diff_bounded), unfolding(crate::specs::Units::minus))]
    fn sub(self, b: Hundredths) -> Sum {
        let x = i32::from(self.0);
        let y = i32::from(b.0);
        Sum { wide: Wide(x - y) }
    }
}

// What was asked less the number given for it.
impl Sub<Hundredths> for Sum {
    type Output = Wide;

    ghost use Rattle.units.specs.Units.{asked_less_given};

    ghost sub_gives = { λ s a w. w ≡ asked_less_given s.wide a };

    #[tactic(auto, using(integers::proofs::Widths::rest_in_32), unfolding(crate::specs::Units::asked_less_given))]
    fn sub(self, a: Hundredths) -> Wide {
        let asked = self.wide.0;
        let given = i32::from(a.0);
        Wide(asked - given)
    }
}
