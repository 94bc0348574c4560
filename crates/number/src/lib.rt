// The value of a number's text: document 01, "Number text to value", and document 02, F-6.
#![tactic(auto)]

ghost use Rattle.std.specs.Prelude.{◌≡◌, ◌+◌, ◌*◌};
ghost use Rattle.reading.specs.Number.{radix, same, lowered, digits_value, number_value};
ghost use Rattle.number.specs.Answers.{base_of, type_number, refusal_number, TypeOf, told};
ghost use Rattle.number.specs.Steps.{digit_or_none, capped, decided};

use reading::{HasNumber, Refusal};
use table::Pos;

// The base of a number, by the mark before it. A row of kind 49 has its number as the detail.
#[derive(Clone, Copy, Debug, PartialEq, Eq)]
pub enum NumberType {
    Hex = 1,
    Dec,
    Bin,
}

impl HasNumber for NumberType {
    ghost number = { type_number };

    fn number(&self) -> u32 {
        *self as u32
    }
}

// A number that no number type has.
#[derive(Clone, Copy, Debug, PartialEq, Eq)]
pub struct UnknownType(pub u32);

#[derive(Clone, Copy, Debug, PartialEq, Eq)]
pub enum ValueError {
    NotANumber,
    TooLarge,
}

impl HasNumber for ValueError {
    ghost number = { refusal_number };

    fn number(&self) -> u32 {
        match self {
            ValueError::NotANumber => 10,
            ValueError::TooLarge => 9,
        }
    }
}

impl Refusal for ValueError {
    ghost gives = { λ _. 0 };

    fn gives(&self) -> usize {
        0
    }
}

// A number type by its number.
impl TryFrom<u32> for NumberType {
    type Error = UnknownType;

    ghost try_from_gives = { TypeOf };

    #[tactic(auto, unfolding(crate::specs::Answers::base_numbered))]
    fn try_from(number: u32) -> Result<NumberType, UnknownType> {
        match number {
            1 => Ok(NumberType::Hex),
            2 => Ok(NumberType::Dec),
            3 => Ok(NumberType::Bin),
            _ => Err(UnknownType(number)),
        }
    }
}

impl NumberType {
    fn radix(self) -> u8
        ensures { result ≡ radix (base_of self) }
    {
        match self {
            NumberType::Hex => 16,
            NumberType::Dec => 10,
            NumberType::Bin => 2,
        }
    }
}

// The largest value that is answered.
const LIMIT: u64 = 9223372036854775807;

// The text is a part of the one that was read, `&text[low..high]` of a row of kind 50; it may be any bytes, and of any length. The words first, as
// the Rust has it, but in any letter case.
pub fn value(ty: NumberType, text: &[u8]) -> Result<u64, ValueError>
    ensures { told result ≡ number_value (base_of ty) text.now }
{
    if is_word(text, b"true") {
        return Ok(1);
    }
    if is_word(text, b"false") {
        return Ok(0);
    }
    digits(ty, text)
}

// Whether the text is a word, in any letter case, and nothing else. The word is given in lower case.
fn is_word(text: &[u8], lower: &[u8]) -> bool
    ensures { result ≡ same (lowered text.now) lower.now }
{
    text.len() == lower.len() && word::begins(text, Pos(0), lower)
}

// Every byte is tested, those behind a value that is too large too.
fn digits(ty: NumberType, text: &[u8]) -> Result<u64, ValueError>
    ensures { told result ≡ digits_value (base_of ty) text.now }
{
    let radix = ty.radix();
    let mut wrong = text.is_empty();
    let mut total: u64 = 0;
    for &b in text {
        let d = digit(b);
        wrong |= radix <= d;
        total = followed(total, radix, d);
    }
    verdict(wrong, total)
}

// A byte's value as a digit, or 16, which is a digit of no base.
#[tactic(auto, unfolding(crate::specs::Steps::digit_or_none))]
fn digit(b: u8) -> u8
    ensures { result ≡ digit_or_none b }
{
    match b {
        b'0'..=b'9' => b - b'0',
        b'a'..=b'f' => b - b'a' + 10,
        b'A'..=b'F' => b - b'A' + 10,
        _ => 16,
    }
}

// The total with one more digit behind it. Above the limit it need not be exact: more digits do not bring it back.
#[tactic(auto, unfolding(crate::specs::Steps::capped))]
fn followed(total: u64, radix: u8, d: u8) -> u64
    ensures { result ≡ capped (total * radix + d) }
{
    total
        .saturating_mul(u64::from(radix))
        .saturating_add(u64::from(d))
        .min(LIMIT + 1)
}

// A wrong digit counts before a value that is too large.
#[tactic(auto, unfolding(crate::specs::Steps::decided))]
fn verdict(wrong: bool, total: u64) -> Result<u64, ValueError>
    ensures { told result ≡ decided wrong total }
{
    if wrong {
        Err(ValueError::NotANumber)
    } else if LIMIT < total {
        Err(ValueError::TooLarge)
    } else {
        Ok(total)
    }
}
