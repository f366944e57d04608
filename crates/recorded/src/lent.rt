// Numbers and strings of a recorded list in lent buffers: taken there, and whether a buffer holds them.
ghost use Rattle.std.specs.Prelude.{◌≡◌, leb, ltb, replicate};
ghost use Rattle.definitions.specs.Basic.{pick};
ghost use Rattle.recorded.specs.Format.{number_from, number_in, string_length, octet_in, first};
ghost use Rattle.recorded.specs.Lent.{lent_octet, lent_number, octets_are, numbers_are};

use crate::Position;
use std::array;

// What all lent memory holds before a case.
const LENT: u8 = 0xa5;

pub const LENT_NUMBER: u32 = 0xa5a5_a5a5;

// Buffers as they are lent.
pub fn lent_octets() -> [u8; 70000]
    ensures { result ≡ replicate 70000 lent_octet }
{
    [LENT; 70000]
}

pub fn lent_numbers() -> [u32; 256]
    ensures { result ≡ replicate 256 lent_number }
{
    [LENT_NUMBER; 256]
}

impl Position<'_> {
    // Whether a buffer of 256 numbers has room for the numbers of a case, and one of 70,000 octets for a string.
    pub fn numbers_fit(self) -> bool
        ensures { result ≡ leb (number_from 2 self.entry.at self.entry.list.now) 256 }
    {
        self.two() <= 256
    }

    pub fn string_fits(self) -> bool
        ensures { result ≡ leb (string_length self.entry.at self.entry.list.now) 70000 }
    {
        self.string_len() <= 70000
    }

    // The number i of the numbers there.
    fn number_in(self, i: usize) -> u32
        ensures { result ≡ number_in self.entry.at self.entry.list.now i }
    {
        self.after(i.saturating_mul(4).saturating_add(2)).four()
    }

    // The number i of n numbers there, or what was lent.
    fn number_or_lent(self, i: usize, n: usize) -> u32
        ensures { result ≡ pick (ltb i n) (number_in self.entry.at self.entry.list.now i) lent_number }
    {
        if i < n {
            self.number_in(i)
        } else {
            LENT_NUMBER
        }
    }

    // Numbers that a case has, in a buffer of their own: an array, since nothing here takes memory from a heap.
    pub fn numbers(self) -> [u32; 256]
        ensures { result ≡ first (number_in self.entry.at self.entry.list.now) 256 }
    {
        array::from_fn(|i| self.number_in(i))
    }

    // The octet i of the string there: one that stands there, or the one that follows them.
    fn octet_in(self, i: usize) -> u8
        ensures { result ≡ octet_in self.entry.at self.entry.list.now i }
    {
        if i < self.two() {
            self.after(i.saturating_add(2)).octet()
        } else {
            self.repeat_at().after(2).octet()
        }
    }

    // The octet i of a string of n octets, or what was lent.
    fn octet_or_lent(self, i: usize, n: usize) -> u8
        ensures { result ≡ pick (ltb i n) (octet_in self.entry.at self.entry.list.now i) lent_octet }
    {
        if i < n { self.octet_in(i) } else { LENT }
    }

    // A string that a case has, in a buffer of its own.
    pub fn string(self) -> [u8; 70000]
        ensures { result ≡ first (octet_in self.entry.at self.entry.list.now) 70000 }
    {
        array::from_fn(|i| self.octet_in(i))
    }

    // Whether a buffer holds a string, and what it held before behind it.
    pub fn output_is(self, output: &[u8]) -> bool
        ensures { result ≡ octets_are self.entry.at self.entry.list.now output.now }
    {
        let n = self.string_len();
        output
            .iter()
            .enumerate()
            .all(|(i, x)| *x == self.octet_or_lent(i, n))
            && n <= output.len()
    }

    // Whether a buffer holds numbers, and what it held before behind them.
    pub fn numbers_are(self, s: &[u32]) -> bool
        ensures { result ≡ numbers_are self.entry.at self.entry.list.now s.now }
    {
        let n = self.two();
        s.iter()
            .enumerate()
            .all(|(i, x)| *x == self.number_or_lent(i, n))
            && n <= s.len()
    }
}
