// The program's arguments: two numbers in decimal digits.
ghost use Rattle.std.specs.Prelude.{◌<◌};

use std::env::FillError;
use std::rt::Env;

const COUNTS: u64 = 1000000000000000;

// How many calls, and the seed that they are drawn from.
#[derive(Clone, Copy)]
pub(crate) struct Arguments {
    pub count: u64,
    pub seed: u32,
    ghost bounded: { count < 1000000000000000 },
}

// Digits that spell a number of 64 bits. The console reads its own (`words`); the load needs nothing of it.
fn number(word: &[u8]) -> Option<u64> {
    if word.is_empty() {
        return None;
    }
    word.iter().try_fold(0u64, |n, b| {
        if !b.is_ascii_digit() {
            return None;
        }
        n.checked_mul(10)?.checked_add((*b - b'0') as u64)
    })
}

// An argument that is missing, or longer than 20 bytes, spells no number.
fn argument(rt: &impl Env, i: usize) -> Option<u64> {
    let mut word = [0u8; 20];
    let n = rt.arg(i, &mut word).ok()?;
    number(&word[..n])
}

// Whether there is an argument i, however long.
fn is_given(rt: &impl Env, i: usize) -> bool {
    let mut word = [0u8; 1];
    !matches!(rt.arg(i, &mut word), Err(FillError::NotPresent))
}

// Two arguments behind the program's name, and no third.
pub(crate) fn read(rt: &impl Env) -> Option<Arguments> {
    if is_given(rt, 3) {
        return None;
    }
    let count = argument(rt, 1)?;
    let seed = u32::try_from(argument(rt, 2)?).ok()?;
    if count < COUNTS {
        Some(Arguments { count, seed })
    } else {
        None
    }
}
