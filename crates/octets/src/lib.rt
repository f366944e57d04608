// Reading octets from a lent slice, with a cursor by value. Past the end each answer is None, and nothing is read.
#![tactic(auto)]

ghost use Rattle.std.specs.Prelude.{◌≡◌, ◌+◌, ◌≤◌, length, take, drop};
ghost use Rattle.definitions.specs.Octets.{remaining, run, number_at};
ghost use Rattle.octets.specs.Answers.{run_of, moved_of, number_of, octets_of};
ghost use Rattle.octets.specs.Places.{StandsAt};

// The most octets of a part, of received or set octets, and of an element.
pub const MOST_OCTETS: usize = 65_535;

// Where the next octet is read.
#[derive(Clone, Copy, PartialEq, Eq)]
pub struct Cursor {
    pub at: usize,
}

// A run of octets: where it starts, how long it is, and the cursor behind it.
#[derive(Clone, Copy, PartialEq, Eq)]
pub struct Run {
    pub start: usize,
    pub len: usize,
    pub next: Cursor,
}

impl Cursor {
    pub fn new() -> Self
        ensures { result.at ≡ 0 }
    {
        Cursor { at: 0 }
    }

    // How many octets are left.
    pub fn remaining(self, s: &[u8]) -> usize
        ensures { result ≡ remaining self.at s.now }
    {
        s.len().saturating_sub(self.at)
    }

    // The next n octets, as their place in the slice.
    pub fn take(self, s: &[u8], n: usize) -> Option<Run>
        ensures { result ≡ run_of self.at n (run n self.at s.now) }
    {
        let start = self.at;
        let end = start.checked_add(n)?;
        if end > s.len() {
            return None;
        }
        Some(Run {
            start,
            len: n,
            next: Cursor { at: end },
        })
    }

    // Past the next n octets.
    pub fn advance(self, s: &[u8], n: usize) -> Option<Cursor>
        ensures { result ≡ moved_of (run_of self.at n (run n self.at s.now)) }
    {
        self.take(s, n).map(|run| run.next)
    }

    // The next n octets themselves, as a part of the slice; no octet where there are fewer.
    pub fn split_to(self, s: &[u8], n: usize) -> &[u8]
        ensures result_value { result.now ≡ octets_of (run n self.at s.now) }
        ensures stands_at { self.at + n ≤ length s.now → StandsAt self.at s.entry result }
    {
        let Some(run) = self.take(s, n) else {
            return &s[..0];
        };
        let start = run.start;
        let end = run.next.at;
        &s[start..end]
    }

    // A number of one, two or four octets, high octet first, and the cursor behind it.
    pub fn get_u8(self, s: &[u8]) -> Option<(u8, Cursor)>
        ensures { result ≡ number_of 1 self.at (number_at 1 self.at s.now) }
    {
        let next = self.advance(s, 1)?;
        Some((s[self.at], next))
    }

    pub fn get_u16(self, s: &[u8]) -> Option<(u16, Cursor)>
        ensures { result ≡ number_of 2 self.at (number_at 2 self.at s.now) }
    {
        let next = self.advance(s, 2)?;
        let at = self.at;
        Some((u16::from_be_bytes([s[at], s[at + 1]]), next))
    }

    pub fn get_u32(self, s: &[u8]) -> Option<(u32, Cursor)>
        ensures { result ≡ number_of 4 self.at (number_at 4 self.at s.now) }
    {
        let next = self.advance(s, 4)?;
        let at = self.at;
        Some((
            u32::from_be_bytes([s[at], s[at + 1], s[at + 2], s[at + 3]]),
            next,
        ))
    }
}

// The octets from a start on, at most so many: as far as there are any.
pub fn part(s: &[u8], start: usize, len: usize) -> &[u8]
    ensures result_value { result.now ≡ take len (drop start s.now) }
    ensures stands_at { start ≤ length s.now → StandsAt start s.entry result }
{
    if start > s.len() {
        return &s[..0];
    }
    let n = len.min(s.len() - start);
    let end = start + n;
    &s[start..end]
}
