// What the programs share that run recorded lists: the numbers and octets that stand at a position of a list, and where its parts end.
// Behind the end of a list there are zeros. crates/replay/README.md has the format.
#![tactic(auto)]

ghost use Rattle.std.specs.Prelude.{◌≡◌, ◌+◌, ◌*◌, ◌≤◌, length, get_or, take, drop, replicate};
ghost use Rattle.recorded.specs.Format.{after as after-of, number_from, repeat_at, string_end, string_length};

pub mod answer;
pub mod counts;
pub mod lent;
pub mod runs;

// What a case has in place of a table number where its table is lent.
pub const LENT_TABLE: u8 = 255;

use std::io::Read;

// A buffer for a whole list.
pub fn list_buffer() -> [u8; 262144]
    ensures { result ≡ replicate 262144 0 }
{
    [0u8; 262144]
}

// One read into the buffer, behind what stands there; none where it fails.
fn read_behind<R: Read>(from: &mut R, list: &mut [u8], len: usize) -> usize
    requires { len ≤ length list.old }
    ensures { len + result ≤ length list.old }
{
    from.read(&mut list[len..]).unwrap_or(0)
}

// Reads until the buffer is full, the input ends or a read fails: how many octets were read.
pub fn read_list<R: Read>(from: &mut R, list: &mut [u8]) -> usize
    ensures { result ≤ length list.new }
{
    let mut len = 0;
    while len < list.len() {
        let more = read_behind(from, list, len);
        if more == 0 {
            return len;
        }
        len += more;
    }
    len
}

// So many octets on, at most at the greatest position.
pub fn after(at: usize, n: usize) -> usize
    ensures { result ≡ after-of at n }
{
    at.saturating_add(n)
}

// A position in a list.
#[derive(Clone, Copy)]
pub struct Position<'a> {
    pub list: &'a [u8],
    pub at: usize,
}

impl<'a> Position<'a> {
    // What stands from there on.
    fn rest(self) -> &'a [u8]
        ensures { result.now ≡ drop self.entry.at self.entry.list.now }
    {
        self.list.get(self.at..).unwrap_or(&[])
    }

    pub fn octet(self) -> u8
        ensures { result ≡ get_or self.entry.list.now self.entry.at 0 }
    {
        self.list.get(self.at).copied().unwrap_or(0)
    }

    // A number of two or four octets; 0 where there are fewer.
    pub fn two(self) -> usize
        ensures { (result ≡ number_from 2 self.entry.at self.entry.list.now) × (result ≤ 65535) }
    {
        let [high, low, ..] = self.rest() else {
            return 0;
        };
        usize::from(u16::from_be_bytes([*high, *low]))
    }

    pub fn four(self) -> u32
        ensures { result ≡ number_from 4 self.entry.at self.entry.list.now }
    {
        let [a, b, c, d, ..] = self.rest() else {
            return 0;
        };
        u32::from_be_bytes([*a, *b, *c, *d])
    }

    pub fn number(self) -> usize
        ensures { result ≡ number_from 4 self.entry.at self.entry.list.now }
    {
        self.four() as usize
    }

    pub fn after(self, n: usize) -> Position<'a>
        ensures list { result.list.now ≡ self.entry.list.now }
        ensures at { result.at ≡ after-of self.entry.at n }
    {
        Position {
            list: self.list,
            at: after(self.at, n),
        }
    }

    // Numbers: how many, and so many.
    pub fn numbers_end(self) -> Position<'a>
        ensures list { result.list.now ≡ self.entry.list.now }
        ensures at { result.at ≡ after-of self.entry.at (2 + 4 * number_from 2 self.entry.at self.entry.list.now) }
    {
        self.after(2 + 4 * self.two())
    }

    // A string: the octets that stand there, and the octet that follows so many times.
    fn repeat_at(self) -> Position<'a>
        ensures list { result.list.now ≡ self.entry.list.now }
        ensures at { result.at ≡ repeat_at self.entry.at self.entry.list.now }
    {
        self.after(2 + self.two())
    }

    pub fn string_end(self) -> Position<'a>
        ensures list { result.list.now ≡ self.entry.list.now }
        ensures at { result.at ≡ string_end self.entry.at self.entry.list.now }
    {
        self.repeat_at().after(3)
    }

    pub fn string_len(self) -> usize
        ensures { result ≡ string_length self.entry.at self.entry.list.now }
    {
        self.two() + self.repeat_at().two()
    }

    // A string, and in four octets how many of its octets are used.
    pub fn used_end(self) -> Position<'a>
        ensures list { result.list.now ≡ self.entry.list.now }
        ensures at { result.at ≡ after-of (string_end self.entry.at self.entry.list.now) 4 }
    {
        self.string_end().after(4)
    }

    pub fn used(self) -> usize
        ensures { result ≡ number_from 4 (string_end self.entry.at self.entry.list.now) self.entry.list.now }
    {
        self.string_end().number()
    }

    // An answer: its number, how many values, and so many of eight octets.
    pub fn answer_end(self) -> Position<'a>
        ensures list { result.list.now ≡ self.entry.list.now }
        ensures at { result.at ≡ after-of self.entry.at (2 + 8 * get_or self.entry.list.now (after-of self.entry.at 1) 0) }
    {
        self.after(2 + 8 * self.after(1).octet() as usize)
    }
}

pub fn cell(s: &[u32], at: usize) -> u32
    ensures { result ≡ get_or s.now at 0 }
{
    s.get(at).copied().unwrap_or(0)
}

// The first n of a buffer, or all where there are fewer.
pub fn front<T>(s: &[T], n: usize) -> &[T]
    ensures { result.now ≡ take n s.now }
{
    s.get(..n).unwrap_or(s)
}
