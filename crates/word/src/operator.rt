// Operators and modifiers: the first byte tells which, and at some of them the second.
#![tactic(auto, using(crate::proofs::Picks::at_byte, crate::proofs::Picks::at_end), unfolding(cursor::specs::Word::first_word, crate::specs::Words::picked_of, crate::specs::Words::two_or))]

ghost use Rattle.std.specs.Prelude.{Some, [], ◌∷◌, ◌≡◌, ◌+◌, ◌≤◌, ◌<◌, length, drop};
ghost use Rattle.cursor.specs.Word.{first_word};
ghost use Rattle.reading.specs.Byte.{begins};
ghost use Rattle.word.specs.Words.{word, picked_of, two_or, term_operators, expression_operators, modifiers};

use crate::Word;
use table::Pos;

// The numbers are the details of an operator's row.
enum BinaryOp {
    Add = 1,
    Sub,
    Mul,
    Div,
    Mod,
    Shl,
    Shr,
    Xor,
    Eq,
    Ne,
    Gt,
    GtEq,
    Lt,
    LtEq,
    And,
    Or,
}

// The numbers are the details of a modifier's row.
enum AddressModifier {
    HighByte = 1,
    LowByte,
}

// The word of one byte.
fn one(detail: usize) -> Option<Word>
    ensures { result ≡ Some (word 1 detail) }
{
    Some(Word { length: 1, detail })
}

// The word of two bytes, if the second is `b`, else the other answer. The first stands at `at`.
fn second(s: &[u8], at: Pos, b: u8, detail: usize, other: Option<Word>) -> Option<Word>
    requires { at.0 < length s.now }
    ensures { result ≡ two_or (begins (b ∷ []) (drop (at.0 + 1) s.now)) detail other }
{
    if s.get(at.0 + 1) == Some(&b) {
        Some(Word { length: 2, detail })
    } else {
        other
    }
}

// `*` `/` `%` `<<` `>>` `^`
pub fn term_operator(s: &[u8], at: Pos) -> Option<Word>
    requires { at.0 ≤ length s.now }
    ensures { result ≡ picked_of (first_word term_operators (drop at.0 s.now)) }
{
    match *s.get(at.0)? {
        b'*' => one(BinaryOp::Mul as usize),
        b'/' => one(BinaryOp::Div as usize),
        b'%' => one(BinaryOp::Mod as usize),
        b'<' => second(s, at, b'<', BinaryOp::Shl as usize, None),
        b'>' => second(s, at, b'>', BinaryOp::Shr as usize, None),
        b'^' => one(BinaryOp::Xor as usize),
        _ => None,
    }
}

// `+` `-` `==` `!=` `>=` `<=` `>` `<` `&&` `||`
pub fn expression_operator(s: &[u8], at: Pos) -> Option<Word>
    requires { at.0 ≤ length s.now }
    ensures { result ≡ picked_of (first_word expression_operators (drop at.0 s.now)) }
{
    match *s.get(at.0)? {
        b'+' => one(BinaryOp::Add as usize),
        b'-' => one(BinaryOp::Sub as usize),
        b'=' => second(s, at, b'=', BinaryOp::Eq as usize, None),
        b'!' => second(s, at, b'=', BinaryOp::Ne as usize, None),
        b'>' => second(
            s,
            at,
            b'=',
            BinaryOp::GtEq as usize,
            one(BinaryOp::Gt as usize),
        ),
        b'<' => second(
            s,
            at,
            b'=',
            BinaryOp::LtEq as usize,
            one(BinaryOp::Lt as usize),
        ),
        b'&' => second(s, at, b'&', BinaryOp::And as usize, None),
        b'|' => second(s, at, b'|', BinaryOp::Or as usize, None),
        _ => None,
    }
}

// `<` `>`
pub fn modifier(s: &[u8], at: Pos) -> Option<Word>
    requires { at.0 ≤ length s.now }
    ensures { result ≡ picked_of (first_word modifiers (drop at.0 s.now)) }
{
    match *s.get(at.0)? {
        b'<' => one(AddressModifier::LowByte as usize),
        b'>' => one(AddressModifier::HighByte as usize),
        _ => None,
    }
}
