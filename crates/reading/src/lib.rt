// The written reading: definitions under specs/, laws about them under proofs/. The limits that document 01 sets.
#![tactic(auto)]

ghost use Rattle.std.specs.Prelude.{◌≡◌, ℕ};

pub const MAX_TEXT: usize = 65536;

pub const MAX_SCOPE: usize = 1000000;

pub const MAX_LEVEL: usize = 64;

// What a word holds as a number of the papers: a kind, an error's code, a refusal; or the number itself, which may be any.
pub trait HasNumber {
    ghost number: { Self → ℕ };

    fn number(&self) -> u32
        ensures { result ≡ number self.now };
}

impl HasNumber for u32 {
    ghost number = { λ n. n };

    fn number(&self) -> u32 {
        *self
    }
}

// What a call refuses with, and what it gives.
pub trait Refusal: HasNumber {
    ghost gives: { Self → ℕ };

    fn gives(&self) -> usize
        ensures { result ≡ gives self.now };
}
