// How much of a list of texts is trivia, and which texts have most of it: document 02, F-14. And the two words of a text, from its reading.
#![tactic(auto)]

ghost use Rattle.std.specs.Prelude.{◌≡◌, ℕ, suc, ◌^◌, ◌≤◌, ◌<◌, min, max, length, take, get_or, position, IfOk};
ghost use Rattle.reading.specs.Table.{max_text, room, row_width};
ghost use Rattle.share.specs.Answers.{told, told_words, shares_number, shares_gives, words_number, words_gives};
ghost use Rattle.share.specs.Shares.{max_texts, texts, trivia_of, length_of, wrong, first_wrong, gcd, share, pooled, larger, ranked, shares};
ghost use Rattle.share.specs.Steps.{fraction, goes_to, largest_of, Inside, With, found_at};
ghost use Rattle.share.specs.Words.{trivia_at, trivia_sum, text_words};
ghost use Rattle.share.specs.declared.WordsError.TheVariants.{Tops};

use reading::{HasNumber, MAX_TEXT, Refusal};
use rows::TopsError;
use table::{ROW, column};

pub const MAX_TEXTS: usize = 1000;

// The words of a text in a list of texts, and which of them is which.
pub const TEXT: usize = 2;

pub const TRIVIA: usize = 0;

pub const LENGTH: usize = 1;

// The two words of a text: its trivia bytes, and its length.
#[derive(Clone, Copy, Debug, PartialEq, Eq)]
pub struct TextWords {
    pub trivia: u32,
    pub length: u32,
}

#[derive(Clone, Copy, Debug, PartialEq, Eq)]
pub struct Fraction {
    pub numerator: u64,
    pub denominator: u64,
}

// The pooled share in lowest terms, and the indexes of the texts with the largest shares, the largest first: three, or all if there are fewer.
#[derive(Clone, Copy, Debug, PartialEq, Eq)]
pub struct SharesFound {
    pub pooled: Fraction,
    pub largest: [Option<usize>; 3],
}

// So many texts are too many; or the first that is wrong has this index.
#[derive(Clone, Copy, Debug, PartialEq, Eq)]
pub enum SharesError {
    TooManyTexts(usize),
    WrongText(usize),
}

impl HasNumber for SharesError {
    ghost number = { shares_number };

    fn number(&self) -> u32 {
        match self {
            SharesError::TooManyTexts(_) => 27,
            SharesError::WrongText(_) => 28,
        }
    }
}

impl Refusal for SharesError {
    ghost gives = { shares_gives };

    fn gives(&self) -> usize {
        match self {
            SharesError::TooManyTexts(n) => *n,
            SharesError::WrongText(i) => *i,
        }
    }
}

impl TextWords {
    // Text i of a list.
    fn of(words: &[u32], i: usize) -> TextWords
        requires { i < texts words.now }
        ensures { (result.trivia ≡ trivia_of words.now i) × (result.length ≡ length_of words.now i) }
    {
        TextWords {
            trivia: words[i * TEXT + TRIVIA],
            length: words[i * TEXT + LENGTH],
        }
    }

    fn is_wrong(self) -> bool
        ensures { result ≡ wrong self.trivia self.length }
    {
        self.length < self.trivia || MAX_TEXT < self.length as usize
    }

    // A text of no bytes has 0 over 1.
    fn over(self) -> u64
        ensures { result ≡ max 1 self.length }
    {
        u64::from(self.length.max(1))
    }
}

// An unpaired last word is no text.
fn count(words: &[u32]) -> usize
    ensures { result ≡ texts words.now }
{
    words.len() / TEXT
}

// The index of the first text that is wrong.
fn first_wrong(words: &[u32]) -> Option<usize>
    ensures { found_at result ≡ first_wrong words.now (texts words.now) }
{
    (0..count(words)).find(|i| TextWords::of(words, *i).is_wrong())
}

// Euclid's, whose turns are not counted.
fn gcd(a: u64, b: u64) -> u64
    requires { 0 < a }
    ensures { (result ≡ gcd a b) × (0 < result) }
{
    let mut x = b;
    let mut y = a;
    while 0 < y {
        let rest = x % y;
        x = y;
        y = rest;
    }
    x
}

fn reduced(a: u64, b: u64) -> Fraction
    ensures { fraction result ≡ share a b }
{
    if a == 0 || b == 0 {
        return Fraction {
            numerator: 0,
            denominator: 1,
        };
    }
    let d = gcd(a, b);
    Fraction {
        numerator: a / d,
        denominator: b / d,
    }
}

// The trivia of all texts over their lengths.
fn pooled(words: &[u32]) -> Fraction
    requires { texts words.now ≤ max_texts }
    ensures { fraction result ≡ pooled words.now }
{
    let mut trivia: u64 = 0;
    let mut length: u64 = 0;
    for i in 0..count(words) {
        let text = TextWords::of(words, i);
        trivia += u64::from(text.trivia);
        length += u64::from(text.length);
    }
    reduced(trivia, length)
}

// Text i has a larger share than text j. By cross products, which are exact: two words make one of 64 bits.
fn larger(words: &[u32], i: usize, j: usize) -> bool
    requires { (i < texts words.now) × (j < texts words.now) }
    ensures { result ≡ larger words.now i j }
{
    let a = TextWords::of(words, i);
    let b = TextWords::of(words, j);
    let x = u64::from(b.trivia) * a.over();
    let y = u64::from(a.trivia) * b.over();
    x < y
}

// The first of the places that has no text with a share as large as that of text i.
fn place_of(words: &[u32], largest: &[Option<usize>], i: usize) -> Option<usize>
    requires { (i < texts words.now) × Inside words.now largest.now }
    ensures { result ≡ position (goes_to words.now i) largest.now }
{
    largest
        .iter()
        .position(|l| l.is_none_or(|j| larger(words, i, j)))
}

// The largest with text i among them. It has the latest index, so it comes behind every share that is not smaller.
fn with_text(words: &[u32], largest: &mut [Option<usize>; 3], i: usize)
    requires { (i < texts words.now) × Inside words.now largest.old }
    ensures { With words.now i largest.old largest.new }
{
    if let Some(place) = place_of(words, largest, i) {
        largest[place..].rotate_right(1);
        largest[place] = Some(i);
    }
}

fn three_largest(words: &[u32]) -> [Option<usize>; 3]
    ensures { result ≡ largest_of (ranked words.now (texts words.now)) }
{
    let mut largest = [None; 3];
    for i in 0..count(words) {
        with_text(words, &mut largest, i);
    }
    largest
}

// Of up to 1,000 texts, two words each: the pooled share in lowest terms, and the three texts with the largest shares.
pub fn shares(words: &[u32]) -> Result<SharesFound, SharesError>
    ensures told { told result ≡ shares words.now }
    ensures largest { IfOk result (λ x. x.largest ≡ largest_of (ranked words.now (texts words.now))) }
{
    let n = count(words);
    if MAX_TEXTS < n {
        return Err(SharesError::TooManyTexts(n));
    }
    if let Some(i) = first_wrong(words) {
        return Err(SharesError::WrongText(i));
    }
    Ok(SharesFound {
        pooled: pooled(words),
        largest: three_largest(words),
    })
}

// What `rows::tops` refuses; or what the rows and the text say is wrong.
#[derive(Clone, Copy, Debug, PartialEq, Eq)]
pub enum WordsError {
    Tops(TopsError),
    WrongText,
}

impl From<TopsError> for WordsError {
    ghost from_gives = { λ e r. r ≡ Tops e };

    fn from(e: TopsError) -> WordsError {
        WordsError::Tops(e)
    }
}

impl HasNumber for WordsError {
    ghost number = { words_number };

    fn number(&self) -> u32 {
        match self {
            WordsError::Tops(e) => e.number(),
            WordsError::WrongText => 28,
        }
    }
}

impl Refusal for WordsError {
    ghost gives = { words_gives };

    // As for a list that has this text alone.
    fn gives(&self) -> usize {
        match self {
            WordsError::Tops(e) => e.gives(),
            WordsError::WrongText => 0,
        }
    }
}

// The trivia bytes of a row: none where its low is before its tlow.
fn trivia_at(rows: &[u32], row: usize) -> usize
    requires { row < room row_width rows.now }
    ensures { (result ≡ trivia_at rows.now row) × (result < 2 ^ 32) }
{
    let tlow = rows[row * ROW + column::TLOW] as usize;
    let low = rows[row * ROW + column::LOW] as usize;
    low.saturating_sub(tlow)
}

// The trivia bytes of some rows, counted as far as one more than so many bytes.
fn top_trivia(rows: &[u32], roots: &[usize], bytes: usize) -> usize
    requires { ((k : ℕ) → k < length roots.now → get_or roots.now k 0 < room row_width rows.now) × (bytes ≤ max_text) }
    ensures { result ≡ min (trivia_sum rows.now roots.now) (suc bytes) }
{
    let mut total: usize = 0;
    for root in roots {
        total += trivia_at(rows, *root);
        if bytes < total {
            return bytes + 1;
        }
    }
    total
}

// The two words of a text from its reading's rows: the trivia bytes of the top rows, and the length. The top rows are listed in the lent table.
pub fn text_words(
    text: &[u8],
    rows: &[u32],
    count: usize,
    roots: &mut [usize],
) -> Result<TextWords, WordsError>
    ensures { told_words result roots.new ≡ text_words text.now rows.now count roots.old }
{
    let n = rows::tops(rows, count, roots)?;
    let length = text.len();
    if MAX_TEXT < length {
        return Err(WordsError::WrongText);
    }
    let trivia = top_trivia(rows, &roots[..n], length);
    if length < trivia {
        return Err(WordsError::WrongText);
    }
    Ok(TextWords {
        trivia: trivia as u32,
        length: length as u32,
    })
}
