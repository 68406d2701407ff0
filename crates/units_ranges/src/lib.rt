// units/specs/Units: what lies within limits, the greater and the lesser, the nearest number within limits.
#![tactic(auto)]

ghost use Rattle.std.specs.Prelude.{◌≡◌};
ghost use Rattle.units.specs.Units.{greater, lesser, clamped, clamping, saturated_difference, within};

use units::{Clamped, Hundredths, Sum, Wide};

// A number and its limits are parameters of their own, here and below, as in the definitions.
#[tactic(auto, unfolding(units::specs::Units::within, units::specs::Units::less))]
pub fn is_within(v: Hundredths, lo: Hundredths, hi: Hundredths) -> bool
    ensures { result ≡ within v lo hi }
{
    lo <= v && v <= hi
}

// The library's, with the definition's promise.
#[tactic(auto, unfolding(units::specs::Units::greater, integers::specs::Clamp::max_z))]
pub fn max(a: Wide, b: Wide) -> Wide
    ensures { result ≡ greater a b }
{
    a.max(b)
}

#[tactic(auto, unfolding(units::specs::Units::lesser, integers::specs::Clamp::min_z))]
pub fn min(a: Wide, b: Wide) -> Wide
    ensures { result ≡ lesser a b }
{
    a.min(b)
}

// The number nearest to `v` within the limits. The last step is the only one that narrows.
#[tactic(auto, unfolding(units::specs::Units::above, units::specs::Units::below, units::specs::Units::clamped, integers::specs::Clamp::clamp_z))]
fn nearest(v: Sum, lo: Hundredths, hi: Hundredths) -> Hundredths
    ensures { result ≡ clamped v.wide lo hi }
{
    if units::is_above(lo, v.wide) {
        return lo;
    }
    if units::is_below(hi, v.wide) {
        return hi;
    }
    Hundredths(v.wide.0 as i16)
}

// The one clamp (C-12): what it gives, and how much of `v` that removes.
#[tactic(auto, unfolding(units::specs::Units::amount_removed))]
pub fn clamp(v: Sum, lo: Hundredths, hi: Hundredths) -> Clamped
    ensures { result ≡ clamping v.wide lo hi }
{
    let given = nearest(v, lo, hi);
    Clamped {
        given: given,
        removed: v - given,
    }
}

#[tactic(auto, unfolding(units::specs::Units::saturated_difference))]
pub fn saturating_sub(a: Hundredths, b: Hundredths) -> Hundredths
    ensures { result ≡ saturated_difference a b }
{
    clamp(a - b, Hundredths::LOWEST, Hundredths::HIGHEST).given
}
