// Which word of a list stands at a place of a text, without rows.
#![tactic(auto)]

ghost use Rattle.std.specs.Prelude.{◌≡◌, ◌≤◌, length, drop};
ghost use Rattle.cursor.specs.Word.{first_word};
ghost use Rattle.reading.specs.Byte.{lower, begins_no_case};
ghost use Rattle.word.specs.Words.{picked_of, encodings};

use table::Pos;

pub mod mnemonic;
pub mod operator;

// A word of a list.
#[derive(Clone, Copy)]
pub struct Word {
    pub length: usize,
    pub detail: usize,
}

// A letter in lower case; any other byte as it is.
pub fn lower(b: u8) -> u8
    ensures { result ≡ lower b }
{
    b.to_ascii_lowercase()
}

// Whether a word stands at a place, in any letter case. The word is given in lower case.
pub fn begins(s: &[u8], at: Pos, word: &[u8]) -> bool
    requires { at.0 ≤ length s.now }
    ensures { result ≡ begins_no_case word.now (drop at.0 s.now) }
{
    let rest = &s[at.0..];
    if rest.len() < word.len() {
        return false;
    }
    for (i, b) in word.iter().enumerate() {
        if *b != lower(rest[i]) {
            return false;
        }
    }
    true
}

// The numbers are the details of an encoding's row.
enum TextEncoding {
    Ascii = 1,
    Petscii,
    Petscreen,
}

// `ascii` `petscii` `petscreen`
#[tactic(auto, unfolding(cursor::specs::Word::first_word, crate::specs::Words::picked_of))]
pub fn encoding(s: &[u8], at: Pos) -> Option<Word>
    requires { at.0 ≤ length s.now }
    ensures { result ≡ picked_of (first_word encodings (drop at.0 s.now)) }
{
    if begins(s, at, b"ascii") {
        return Some(Word {
            length: 5,
            detail: TextEncoding::Ascii as usize,
        });
    }
    if begins(s, at, b"petscii") {
        return Some(Word {
            length: 7,
            detail: TextEncoding::Petscii as usize,
        });
    }
    if begins(s, at, b"petscreen") {
        return Some(Word {
            length: 9,
            detail: TextEncoding::Petscreen as usize,
        });
    }
    None
}
