// The set of places met, a bit each in two numbers of 64 bits.
#![tactic(auto)]

ghost use Rattle.std.specs.Prelude.{◌≡◌, ◌<◌, eqb};
ghost use Rattle.definitions.specs.Basic.{bit};
ghost use Rattle.definitions.specs.Elements.{including};
ghost use Rattle.seen.specs.Seen.{set_of, seen_of, including_place};

// Two numbers, as the C interface has them.
#[derive(Clone, Copy, PartialEq, Eq)]
pub struct Seen {
    pub low: u64,
    pub high: u64,
}

// Bit k of a number.
fn has_bit(set: u64, k: usize) -> bool
    requires { k < 64 }
    ensures { result ≡ bit k set }
{
    (set >> k) % 2 == 1
}

// A number with bit k in it.
fn with_bit(set: u64, k: usize) -> u64
    requires { k < 64 }
    ensures { result ≡ including k set }
{
    if has_bit(set, k) {
        return set;
    }
    set + (1 << k)
}

impl Seen {
    // No place.
    pub fn new() -> Self
        ensures { result ≡ seen_of 0 }
    {
        Seen { low: 0, high: 0 }
    }

    // Whether no place was met.
    pub fn is_empty(self) -> bool
        ensures { result ≡ eqb (set_of self) 0 }
    {
        self.low == 0 && self.high == 0
    }

    // Whether a place was met.
    pub fn has(self, place: usize) -> bool
        ensures { result ≡ bit place (set_of self) }
    {
        if place < 64 {
            return has_bit(self.low, place);
        }
        place < 128 && has_bit(self.high, place - 64)
    }

    // The set with a place in it; a place from 128 on is none, and leaves it as it is.
    pub fn with(self, place: usize) -> Self
        ensures { result ≡ seen_of (including_place place (set_of self)) }
    {
        let Seen { low, high } = self;
        if place < 64 {
            return Seen {
                low: with_bit(low, place),
                high,
            };
        }
        if place < 128 {
            return Seen {
                low,
                high: with_bit(high, place - 64),
            };
        }
        self
    }
}
