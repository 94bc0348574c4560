// Replays lists of texts and their shares, and texts and their two words, and compares. A line of the input is a case; tools/make-share-cases
// makes them, and says what the fields are. Printed are the place of each case that differs, and for each name how many are equal and how many
// differ.
#![tactic(auto)]

ghost use Rattle.std.specs.Prelude.{◌≤◌, length};

use fields::Fields;
use reading::{HasNumber, Refusal};
use rows::TopsError;
use share::{Fraction, SharesFound, TEXT, TextWords, WordsError};
use std::io;
use std::io::{BufWriter, Read, Write};
use table::{ERROR, REQUEST, ROW};

// The longest input; what lies behind it is not read.
const LONGEST: u64 = 65536;

// A refusal's number, and what it gives.
#[derive(Clone, Copy, Debug, PartialEq, Eq)]
struct Refused {
    number: usize,
    gives: usize,
}

// The pooled share, how many of the largest there are, and their indexes; 0 where there is none.
#[derive(Clone, Copy, Debug, PartialEq, Eq)]
struct Found {
    pooled: Fraction,
    count: usize,
    largest: [usize; 3],
}

// The outcome that is expected of a list, and how many words it has.
#[derive(Clone, Copy)]
struct Expected {
    outcome: Result<Found, Refused>,
    words: usize,
}

fn main(rt: HostRuntime) -> io::Result<()> {
    let mut out = BufWriter::new(rt.alloc(), io::writer(&rt))?;
    let mut input = Vec::new(rt.alloc());
    rt.reader().take(LONGEST).read_to_end(&mut input)?;
    output::replay_within(&mut out, &input, case)?;
    out.flush()
}

// A list of texts is 0, a text is 1.
fn case(input: &[u8], line: usize) -> bool {
    let mut texts = [[0u32; TEXT]; 1024];
    let mut bytes = [0u8; 256];
    let mut fields = Fields::within(input, line);
    if fields.number() == 0 {
        return list(&mut fields, &mut texts);
    }
    text(&mut fields, &mut bytes)
}

fn list(fields: &mut Fields, texts: &mut [[u32; TEXT]]) -> bool {
    let e = expected_of(fields);
    let n = fill(fields, texts);
    let Some(words) = texts[..n].as_flattened().get(..e.words) else {
        return false;
    };
    let outcome = share::shares(words).map(found_of).map_err(|e| Refused {
        number: e.number() as usize,
        gives: e.gives(),
    });
    outcome == e.outcome
}

fn found_of(x: SharesFound) -> Found {
    Found {
        pooled: x.pooled,
        count: x.largest.iter().flatten().count(),
        largest: x.largest.map(|index| index.unwrap_or(0)),
    }
}

fn expected_of(fields: &mut Fields) -> Expected {
    let refused = Refused {
        number: fields.number(),
        gives: fields.number(),
    };
    let found = Found {
        pooled: Fraction {
            numerator: fields.number() as u64,
            denominator: fields.number() as u64,
        },
        count: fields.number(),
        largest: [fields.number(), fields.number(), fields.number()],
    };
    Expected {
        outcome: if refused.number == 0 {
            Ok(found)
        } else {
            Err(refused)
        },
        words: fields.number(),
    }
}

// Puts the texts that are left of a line into the list, as far as there is room; how many there are. A run is how often a text comes, its trivia and
// its length.
fn fill(fields: &mut Fields, texts: &mut [[u32; TEXT]]) -> usize
    ensures { result ≤ length texts.old }
{
    let mut end: usize = 0;
    // A turn takes three fields, so this is no `for`.
    while !fields.is_empty() {
        let times = fields.number().min(texts.len() - end);
        let text = [word(fields.number()), word(fields.number())];
        texts[end..end + times].fill(text);
        end += times;
    }
    end
}

fn word(n: usize) -> u32 {
    (n % 4294967296) as u32
}

fn text(fields: &mut Fields, bytes: &mut [u8]) -> bool {
    let trivia = fields.number();
    let length = fields.number();
    let n = fields.runs(bytes, 0);
    read(&bytes[..n], trivia, length)
}

// The two words from the text's reading.
fn read(text: &[u8], trivia: usize, length: usize) -> bool {
    let mut rows = [0u32; 1025 * ROW];
    let mut errors = [0u32; 257 * ERROR];
    let mut requests = [0u32; 256 * REQUEST];
    let mut roots = [0usize; 1025];
    let r = parser::read(text, 0, false, 64, &mut rows, &mut errors, &mut requests);
    let Ok(x) = r else {
        return false;
    };
    words(text, &rows, x.rows, trivia, length, &mut roots)
}

// In just the room that the top rows need, and in a word less.
fn words(
    text: &[u8],
    rows: &[u32],
    count: usize,
    trivia: usize,
    length: usize,
    roots: &mut [usize],
) -> bool {
    let Ok(n) = rows::top_count(rows, count) else {
        return false;
    };
    if n == 0 || roots.len() < n {
        return false;
    }
    let a = share::text_words(text, rows, count, &mut roots[..n]);
    let b = share::text_words(text, rows, count, &mut roots[..n - 1]);
    answered(a, trivia, length) && b == Err(WordsError::Tops(TopsError::NoRoom(n)))
}

fn answered(a: Result<TextWords, WordsError>, trivia: usize, length: usize) -> bool {
    a.is_ok_and(|x| x.trivia as usize == trivia && x.length as usize == length)
}
