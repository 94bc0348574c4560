// The fields of a line of test cases: decimal numbers, each ended by a byte that is no digit; texts in hexadecimal digits, and in runs of bytes.
#![tactic(auto)]

ghost use Rattle.std.specs.Prelude.{◌≡◌, ◌↔◌, ◌≤◌, ◌<◌, length, take, IsTrue};
ghost use Rattle.fields.specs.Fields.{ReadsOn};

use std::marker::Model;

#[cfg(test)]
mod tests;

// A value from here on has 19 digits.
const MOST: usize = 1000000000000000000;

// The fields of a line that are not read yet. A field that the line lacks is read from what stands behind it; where nothing stands there it is
// empty, and the number 0.
#[derive(Drop)]
pub struct Fields<'a> {
    // What is not read yet of the input, and how many bytes of it stand behind the line.
    rest: &'a [u8],
    behind: usize,
}

impl<'a> Model for Fields<'a> {
    ghost use Rattle.std.specs.Prelude.{List, ℕ, ◌-◌, length, take};

    ghost Value = { List ℕ };

    // What is left of the line.
    ghost view = { λ f. take (length f.rest.now - f.behind) f.rest.now };
}

impl<'a> Fields<'a> {
    // The fields of a line that nothing stands behind.
    pub fn new(line: &'a [u8]) -> Fields<'a>
        ensures { result ≡ line.now }
    {
        Fields::within(line, line.len())
    }

    // The line is the first so many bytes of the input.
    pub fn within(input: &'a [u8], line: usize) -> Fields<'a>
        ensures { result ≡ take line input.now }
    {
        Fields {
            rest: input,
            behind: input.len().saturating_sub(line),
        }
    }

    // The line is read, or more.
    pub fn is_empty(&self) -> bool
        ensures { IsTrue result ↔ (length self.now ≡ 0) }
    {
        self.rest.len() <= self.behind
    }

    // Just the line is read.
    pub fn is_at_end(&self) -> bool
        ensures { IsTrue result → (length self.now ≡ 0) }
    {
        self.rest.len() == self.behind
    }

    // A decimal number, which ends before the next byte that is no digit, or behind 19 digits.
    pub fn number(&mut self) -> usize
        ensures { ReadsOn self.old self.new }
    {
        let mut value: usize = 0;
        self.field(|&b| {
            if !b.is_ascii_digit() || MOST <= value {
                return true;
            }
            value = value * 10 + usize::from(digit(b));
            false
        });
        value
    }

    // The field that ends before the next such byte.
    pub fn before(&mut self, end: u8) -> &'a [u8]
        ensures { ReadsOn self.old self.new }
    {
        self.field(|&b| b == end)
    }

    // The field that a byte ends, which is read too.
    fn field<F: FnMut(&u8) -> bool>(&mut self, ends: F) -> &'a [u8]
        requires { (state : F) (x : _) → F.pre state x }
        ensures { ReadsOn self.old self.new }
    {
        let n = self.rest.iter().position(ends).unwrap_or(self.rest.len());
        let (field, rest) = self.rest.split_at(n);
        self.rest = rest.get(1..).unwrap_or(&[]);
        field
    }

    // Puts the rest, in runs, into the text from a place on; the place behind them. A run is how often a byte comes, and the byte.
    pub fn runs(&mut self, text: &mut [u8], low: usize) -> usize
        requires { low ≤ length text.old }
        ensures { (low ≤ result) × (result ≤ length text.old) }
    {
        let mut end = low;
        // A turn takes two fields, so this is no `for`.
        while !self.is_empty() {
            let times = self.number();
            let byte = self.number();
            end = put(text, end, times, (byte % 256) as u8);
        }
        end
    }
}

// Puts so many of a byte into the text from a place on, as far as there is room; the place behind them.
pub fn put(text: &mut [u8], at: usize, times: usize, byte: u8) -> usize
    requires { at ≤ length text.old }
    ensures { (at ≤ result) × (result ≤ length text.old) }
{
    let end = at + times.min(text.len() - at);
    text[at..end].fill(byte);
    end
}

// A digit's value; the hexadecimal ones are in lower case. 0 where it is none.
pub fn digit(b: u8) -> u8
    ensures { result < 16 }
{
    match b {
        b'0'..=b'9' => b - b'0',
        b'a'..=b'f' => b - b'a' + 10,
        _ => 0,
    }
}

// Puts the bytes of pairs of hexadecimal digits into the text, as far as there is room; how many. A last digit alone has a 0 behind it.
pub fn put_hex(text: &mut [u8], digits: &[u8]) -> usize
    ensures { result ≤ length text.old }
{
    for (byte, pair) in text.iter_mut().zip(digits.chunks(2)) {
        *byte = digit(pair[0]) * 16 + pair.get(1).map_or(0, |&b| digit(b));
    }
    text.len().min(digits.len().div_ceil(2))
}
