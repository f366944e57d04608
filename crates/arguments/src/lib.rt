// What a program is handed: numbers as words, in decimal, which bin/launch makes of the user's.
#![tactic(auto)]

ghost use Rattle.std.specs.Prelude.{◌≡◌};
ghost use Rattle.arguments.specs.Words.{number_of, digits_from, with_digit};

use std::env::Env;

// A number with a digit behind it, below 100,000.
#[tactic(auto, using(std::proofs::lemmas::Bool::Decides::nat_tests), unfolding(crate::specs::Words::with_digit))]
fn with_digit(n: u32, x: u8) -> Option<u32>
    ensures { result ≡ with_digit n x }
{
    match x {
        b'0'..=b'9' if n < 10_000 => Some(10 * n + u32::from(x - b'0')),
        _ => None,
    }
}

// The digits, read from the front.
fn digits(word: &[u8]) -> Option<u32>
    ensures { result ≡ digits_from 0 word.now }
{
    let mut n = 0;
    for x in word {
        n = with_digit(n, *x)?;
    }
    Some(n)
}

// The number that a word is, in decimal, below 100,000.
pub fn number_of(word: &[u8]) -> Option<u32>
    ensures { result ≡ number_of word.now }
{
    match word {
        [] => None,
        _ => digits(word),
    }
}

// The number that the program's argument i is, counted from 1.
pub fn argument<R: Env>(rt: &R, i: usize) -> Option<u32> {
    let mut word = [0u8; 8];
    let len = rt.arg(i, &mut word).ok()?;
    number_of(&word[..len])
}

// The same, with a number for a word that is none.
pub fn argument_or<R: Env>(rt: &R, i: usize, other: u32) -> u32 {
    argument(rt, i).unwrap_or(other)
}
