// A 32-bit float of degrees in hundredths, worked out from its bits.
ghost use Rattle.std.specs.Prelude.{◌≡◌, ◌<◌, ◌≤◌, ◌*◌, ◌^◌, ◌-◌};
ghost use Rattle.probes.specs.Probes.{half_to_even, significand, signed, in_range, of_pattern, of_degrees};

use units::Hundredths;

// The weight of the sign, and of the digit before the fraction, behind which the exponent begins.
const SIGN: u32 = 1 << 31;

const LEADING_DIGIT: u32 = 1 << 23;

// With a lower exponent the hundredths are below a half, with a higher one no fraction is left and the number is out of range.
const LOWEST_EXPONENT: u32 = 119;

const HIGHEST_EXPONENT: u32 = 149;

const HUNDREDTHS_IN_A_DEGREE: u32 = 100;

// The range of a temperature: from absolute zero to the end of 16 bits.
const MOST_BELOW_ZERO: u32 = 27315;

const MOST_ABOVE_ZERO: u32 = 32767;

// n / 2^k to the nearest whole number, a half to the even one: just under a half is added, and where the quotient is odd a half.
#[tactic(auto, using(crate::proofs::Patterns::half_under, crate::proofs::Patterns::half_fits, crate::proofs::Patterns::rounded))]
fn nearest(n: u32, k: u32) -> u32
    requires n_bound { n < 2147483648 }
    requires k_nonzero { 0 < k }
    requires k_bound { k < 32 }
    ensures { result ≡ half_to_even n (2 ^ k) }
{
    let quotient = n >> k;
    let half = 1u32 << (k - 1);
    (n + (half - 1) + quotient % 2) >> k
}

// The hundredths nearest to a float without its sign.
#[tactic(auto, using(crate::proofs::Patterns::too_small, crate::proofs::Patterns::shifted))]
fn magnitude(exponent: u32, fraction: u32) -> u32
    requires exponent_bound { exponent ≤ 149 }
    requires fraction_bound { fraction < 8388608 }
    ensures { result ≡ half_to_even (100 * (significand exponent fraction * 2 ^ (exponent - 1))) (2 ^ 149) }
{
    if exponent < LOWEST_EXPONENT {
        return 0;
    }
    nearest(
        HUNDREDTHS_IN_A_DEGREE * (LEADING_DIGIT + fraction),
        HIGHEST_EXPONENT + 1 - exponent,
    )
}

// The range is tested on the rounded number.
#[tactic(auto, using(crate::proofs::Patterns::inside, crate::proofs::Patterns::outside_below, crate::proofs::Patterns::outside_above))]
fn in_range(negative: bool, n: u32) -> Option<Hundredths>
    ensures { result ≡ in_range (signed negative n) }
{
    let most = if negative {
        MOST_BELOW_ZERO
    } else {
        MOST_ABOVE_ZERO
    };
    if most < n {
        return None;
    }
    let size = n as i16;
    Some(Hundredths(if negative { -size } else { size }))
}

// Exponent 255, an infinity or a NaN, is out of range too.
#[tactic(auto, using(crate::proofs::Patterns::by_size, crate::proofs::Patterns::too_large))]
fn of_pattern(bits: u32) -> Option<Hundredths>
    ensures { result ≡ of_pattern bits }
{
    let exponent = bits % SIGN / LEADING_DIGIT;
    if HIGHEST_EXPONENT < exponent {
        return None;
    }
    in_range(SIGN <= bits, magnitude(exponent, bits % LEADING_DIGIT))
}

// A NaN has no bits to look at.
#[tactic(auto, using(crate::proofs::Patterns::of_nan, crate::proofs::Patterns::not_nan))]
pub(crate) fn of_degrees(x: f32) -> Option<Hundredths>
    ensures { result ≡ of_degrees x }
{
    if x.is_nan() {
        return None;
    }
    of_pattern(x.to_bits())
}
