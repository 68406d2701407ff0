// What the letters of a form stand for. They stay bytes: a row of 22 variants of an enum is no plainer.
use words::Field;

// How far below zero a letter's numbers go, and how far above.
fn bounds(letter: u8) -> (u64, u64) {
    match letter {
        b'f' => (0, 1),
        b'b' => (0, 255),
        b't' => (128, 127),
        b'w' => (0, 65535),
        b'h' | b'H' | b'S' | b's' => (32768, 32767),
        b'd' | b'D' => (0, 4294967295),
        _ => (0, u64::MAX),
    }
}

// Whether a word may stand at a letter's place. Numbers stand at small letters and capitals, and none at capitals.
pub(crate) fn fits(letter: u8, f: Field) -> bool {
    match f {
        Field::At => letter == b'@',
        Field::Nothing => letter.is_ascii_uppercase(),
        Field::Number(n) => {
            let (below, above) = bounds(letter);
            let most = if n.negative { below } else { above };
            letter.is_ascii_alphabetic() & (n.size <= most)
        }
    }
}

// Whether a line may end where this letter's number would stand.
pub(crate) fn is_end(letter: u8) -> bool {
    matches!(letter, b'@' | b'S' | b's' | b'.')
}
