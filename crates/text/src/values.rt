// What stands after a label. A conversion of each type that is printed, since each is a variant of its own.
ghost use Rattle.std.specs.Prelude.{◌≡◌, MatchOption};
ghost use Rattle.text.specs.declared.values.Value.TheVariants.{Absent, Number, Degrees, Difference};

use units::{Hundredths, Wide};

#[derive(Clone, Copy)]
pub enum Value {
    Empty,
    // A dash. Not an Option, since the dash is text too.
    Absent,
    Number(u64),
    Code(u64),
    Degrees(Hundredths),
    Difference(Wide),
}

impl From<u32> for Value {
    ghost from_gives = { λ n v. v ≡ Number n };

    fn from(n: u32) -> Value {
        Value::Number(u64::from(n))
    }
}

impl From<u64> for Value {
    ghost from_gives = { λ n v. v ≡ Number n };

    fn from(n: u64) -> Value {
        Value::Number(n)
    }
}

impl From<Hundredths> for Value {
    ghost from_gives = { λ h v. v ≡ Degrees h };

    fn from(h: Hundredths) -> Value {
        Value::Degrees(h)
    }
}

impl From<Wide> for Value {
    ghost from_gives = { λ w v. v ≡ Difference w };

    fn from(w: Wide) -> Value {
        Value::Difference(w)
    }
}

impl<T: Into<Value>> From<Option<T>> for Value {
    ghost from_gives = { λ o v. MatchOption o (v ≡ Absent) (λ x. T.converts x v) };

    fn from(o: Option<T>) -> Value {
        match o {
            Some(x) => x.into(),
            None => Value::Absent,
        }
    }
}
