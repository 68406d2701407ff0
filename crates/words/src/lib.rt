// A word of a line after the first: none, the mark of the readings, or a decimal number.
#![tactic(auto)]

ghost use Rattle.std.specs.Prelude.{◌≡◌};
ghost use Rattle.words.specs.Words.{appended_of, digits_of, number_of, field_of};

// A sign and a size, both always there: `-0` is not `0`.
#[derive(Clone, Copy, PartialEq, Eq)]
pub struct Number {
    pub negative: bool,
    pub size: u64,
}

// What a word says: nothing is said by a dash.
#[derive(Clone, Copy, PartialEq, Eq)]
pub enum Field {
    At,
    Nothing,
    Number(Number),
}

// A word that is neither none, nor the mark, nor a number of 64 bits.
#[derive(Clone, Copy, PartialEq, Eq)]
pub struct BadWord;

// The number with one more digit, where the byte is a digit and 64 bits hold the number.
#[tactic(auto, unfolding(crate::specs::Words::appended_of))]
fn appended(size: u64, byte: u8) -> Option<u64>
    ensures { result ≡ appended_of size byte }
{
    if !byte.is_ascii_digit() {
        return None;
    }
    size.checked_mul(10)?.checked_add(u64::from(byte - b'0'))
}

#[tactic(auto, using(crate::proofs::Spoiled::spoiled_at), unfolding(crate::specs::Words::digits_after))]
fn digits_of(word: &[u8]) -> Option<u64>
    ensures { result ≡ digits_of word.now }
{
    let mut size = 0;
    for byte in word {
        size = appended(size, *byte)?;
    }
    Some(size)
}

fn number_of(negative: bool, digits: &[u8]) -> Result<Field, BadWord>
    ensures { result ≡ number_of negative (digits_of digits.now) }
{
    let size = digits_of(digits).ok_or(BadWord)?;
    Ok(Field::Number(Number { negative, size }))
}

#[tactic(auto, unfolding(crate::specs::Words::field_of, crate::specs::Words::is_only))]
pub fn field_of(word: &[u8]) -> Result<Field, BadWord>
    ensures { result ≡ field_of word.now }
{
    match word {
        [] => Err(BadWord),
        b"-" => Ok(Field::Nothing),
        b"@" => Ok(Field::At),
        [b'-', digits @ ..] => number_of(true, digits),
        digits => number_of(false, digits),
    }
}
