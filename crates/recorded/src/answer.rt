// Whether an answer is the recorded one: its number, how many values it has, at most four, and the values, of eight octets each.
ghost use Rattle.std.specs.Prelude.{◌≡◌};
ghost use Rattle.recorded.specs.Answer.{eight_from, value_is, values_are, answer_is};

use crate::Position;

impl Position<'_> {
    fn eight(self) -> u64
        ensures { result ≡ eight_from self.entry.at self.entry.list.now }
    {
        u64::from(self.four()) * 4_294_967_296 + u64::from(self.after(4).four())
    }

    // Whether a value is the recorded one there, where the answer has it.
    fn value_is(self, is_there: bool, x: u64) -> bool
        ensures { result ≡ value_is self.entry.at self.entry.list.now is_there x }
    {
        !is_there || self.eight() == x
    }

    fn values_are(self, values: &[u64; 5]) -> bool
        ensures { result ≡ values_are self.entry.at self.entry.list.now values.now }
    {
        let n = values[0];
        self.value_is(n > 0, values[1])
            && self.after(8).value_is(n > 1, values[2])
            && self.after(16).value_is(n > 2, values[3])
            && self.after(24).value_is(n > 3, values[4])
    }

    // A number and the five places that a call fills: how many values there are, and the values. They are an array, as the C interface has them.
    pub fn answer_is(self, number: u32, values: &[u64; 5]) -> bool
        ensures { result ≡ answer_is self.entry.at self.entry.list.now number values.now }
    {
        u32::from(self.octet()) == number
            && u64::from(self.after(1).octet()) == values[0]
            && self.after(2).values_are(values)
    }
}
