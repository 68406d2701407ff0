// Words as the numbers that they stand for. What a type cannot hold is read as 0, and so is a word that is no number; the
// letters of a form keep both out.
ghost use Rattle.std.specs.Prelude.{◌≡◌, ◌<◌, ◌^◌, is_some, Result};
ghost use Rattle.std.specs.Result.{ResultUnwrapsOrElse};
ghost use Rattle.std.specs.Int.{w8, w16};
ghost use Rattle.std.proofs.Common.{SFits};
ghost use Rattle.words.specs.Words.{is_given, size_of, value_of, signed_of};
ghost use Rattle.lines.specs.Numbers.{size, signed, size_at, signed_at};

use crate::fields::Fields;
use units::{Hundredths, Tenths};
use words::{Field, Number};

const ZERO: Number = Number {
    negative: false,
    size: 0,
};

pub(crate) fn number_of(f: Field) -> Option<Number>
    ensures given_value { is_some result ≡ is_given f }
    ensures size_value { size result ≡ size_of f }
    ensures signed_value { signed result ≡ value_of f }
{
    match f {
        Field::Nothing => None,
        Field::At => Some(ZERO),
        Field::Number(n) => Some(n),
    }
}

// With its sign. What 64 bits cannot hold is read as 0.
fn signed_of(n: Number) -> i64
    ensures { n.size < 2 ^ 63 → result ≡ signed_of n }
{
    let size: i64 = fitting(n.size);
    if n.negative { -size } else { size }
}

// What the type cannot hold is read as 0.
fn fitting<X, N: TryFrom<X> + Default>(x: X) -> N
where
    N::Error: Drop,
    ensures { (r : Result N N.Error) × N.try_from_gives x r × ResultUnwrapsOrElse r N.is_default result }
{
    N::try_from(x).unwrap_or_default()
}

// A signed number gets its unit here. `SFits` is the library's word for a number that a width holds. No `From`: number and units are types of other crates.
fn as_hundredths(n: Number) -> Hundredths
    ensures { SFits w16 (signed_of n) → result.0 ≡ signed_of n }
{
    Hundredths(fitting(signed_of(n)))
}

fn as_tenths(n: Number) -> Tenths
    ensures { SFits w8 (signed_of n) → result.0 ≡ signed_of n }
{
    Tenths(fitting(signed_of(n)))
}

// The number at place `i` of a line.
impl Fields {
    pub(crate) fn unsigned_or_none<N: TryFrom<u64> + Default>(&self, i: usize) -> Option<N>
    where
        N::Error: Drop,
    {
        let n = self.at(i)?;
        Some(fitting(n.size))
    }

    pub(crate) fn hundredths_or_none(&self, i: usize) -> Option<Hundredths> {
        self.at(i).map(as_hundredths)
    }

    fn size(&self, i: usize) -> u64
        ensures { result ≡ size_at self.now i }
    {
        self.at(i).map_or(0, |n| n.size)
    }

    pub(crate) fn unsigned<N: TryFrom<u64> + Default>(&self, i: usize) -> N
    where
        N::Error: Drop,
        ensures { (r : Result N N.Error) × N.try_from_gives (size_at self.now i) r × ResultUnwrapsOrElse r N.is_default result }
    {
        fitting(self.size(i))
    }

    pub(crate) fn hundredths(&self, i: usize) -> Hundredths
        ensures { SFits w16 (signed_at self.now i) → result.0 ≡ signed_at self.now i }
    {
        self.at(i).map_or(Hundredths::ZERO, as_hundredths)
    }

    pub(crate) fn tenths(&self, i: usize) -> Tenths
        ensures { SFits w8 (signed_at self.now i) → result.0 ≡ signed_at self.now i }
    {
        self.at(i).map_or(Tenths(0), as_tenths)
    }
}
