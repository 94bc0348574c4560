// Trivia: classes of bytes, runs, comments, the items of trivia, and the call that lists them.
#![tactic(auto)]

ghost use Rattle.std.specs.Prelude.{◌≡◌, true, false, [], ◌∷◌, ◌+◌, ◌≤◌, ◌<◌, length, drop, get_or, position, nat_le};
ghost use Rattle.std.proofs.Math.Option.{none};
ghost use Rattle.reading.specs.Byte.{blank, digit, run, begins};
ghost use Rattle.reading.specs.Rules.{trivia, multiline_trivia};
ghost use Rattle.reading.specs.Table.{max_text, first_high};
ghost use Rattle.reading.specs.Items.{trivia_items};
ghost use Rattle.cursor.specs.Text.{Skips};
ghost use Rattle.trivia.specs.Answers.{told, listed, high_of, Lists};
ghost use Rattle.trivia.specs.Class.{bit_of, among, starts, goes, name_run};
ghost use Rattle.trivia.specs.Piece.{Starts, Nothing, trivia_of};

use crate::class::Class;
use cursor::Skip;
use reading::{HasNumber, MAX_TEXT};
use table::Pos;

pub mod class;
mod comment;
mod error;
mod kind;

pub use error::ItemsError;
pub use kind::ItemKind;

// The end of the run that starts here, of bytes of the class if `inside` is set, and of bytes that are not of it if not.
pub fn run_end(s: &[u8], at: Pos, class: Class, inside: bool) -> Pos
    ensures { result.0 ≡ at.0 + run (among (bit_of class) inside) (drop at.0 s.now) }
{
    for i in at.0..s.len() {
        if !class.among(s[i], inside) {
            return Pos(i);
        }
    }
    Pos(at.0.max(s.len()))
}

// The end of the name that starts here, in which `also` may stand beside letters and digits; `at` where none does.
pub fn name_end(s: &[u8], at: Pos, also: u8) -> Pos
    ensures { result.0 ≡ at.0 + name_run (starts also) (goes also) (drop at.0 s.now) }
{
    match s.get(at.0) {
        Some(b) if b.is_ascii_alphabetic() | (*b == also) => {}
        _ => return at,
    }
    for i in at.0 + 1..s.len() {
        if !class::goes_on(s[i], also) {
            return Pos(i);
        }
    }
    Pos(s.len())
}

// The end of the digits that start here. Most often there is none, which the first byte tells.
pub fn digits_end(s: &[u8], at: Pos) -> Pos
    ensures { result.0 ≡ at.0 + run digit (drop at.0 s.now) }
{
    match s.get(at.0) {
        Some(b) if b.is_ascii_digit() => run_end(s, at, Class::Digit, true),
        _ => at,
    }
}

// The byte stands here.
pub fn byte_is(s: &[u8], at: Pos, b: u8) -> bool
    ensures { result ≡ begins (b ∷ []) (drop at.0 s.now) }
{
    s.get(at.0) == Some(&b)
}

// The two bytes stand here.
pub fn two_are(s: &[u8], at: Pos, a: u8, b: u8) -> bool
    ensures { result ≡ begins (a ∷ b ∷ []) (drop at.0 s.now) }
{
    byte_is(s, at, a) && byte_is(s, Pos(at.0 + 1), b)
}

// One item of trivia.
#[derive(Clone, Copy)]
pub struct Item {
    pub kind: ItemKind,
    pub end: Pos,
}

// What starts at a slash: a comment, or nothing.
fn comment_item(s: &[u8], at: Pos) -> Option<Item>
    requires at_in_bounds { at.0 < length s.now }
    requires at_value { get_or s.now at.0 0 ≡ 47 }
    ensures { Starts s.now at.0 result }
{
    let behind = at.0 + 2;
    if two_are(s, at, b'/', b'*') {
        return Some(match comment::c_comment(s, Pos(behind)) {
            Some(end) => Item {
                kind: ItemKind::BlockComment,
                end,
            },
            None => Item {
                kind: ItemKind::Unterminated,
                end: Pos(s.len()),
            },
        });
    }
    if two_are(s, at, b'/', b'/') {
        let end = comment::line_end(s, Pos(behind));
        if behind < end.0 {
            return Some(Item {
                kind: ItemKind::LineComment,
                end,
            });
        }
    }
    None
}

// The end of the blanks that go on here. Most often a blank stands alone, which the next byte tells.
fn blanks_end(s: &[u8], at: Pos) -> Pos
    ensures { result.0 ≡ at.0 + run blank (drop at.0 s.now) }
{
    match s.get(at.0) {
        Some(b' ' | b'\t') => run_end(s, at, Class::Blank, true),
        _ => at,
    }
}

// What starts here. Most bytes stand above the space and start nothing; they are answered first.
pub fn trivia_item(s: &[u8], at: Pos) -> Option<Item>
    ensures { Starts s.now at.0 result }
{
    let low = at.0;
    if s.len() <= low {
        return None;
    }
    let b = s[low];
    if b' ' < b {
        return if b == b'/' { comment_item(s, at) } else { None };
    }
    let (kind, end) = match b {
        b' ' | b'\t' => (ItemKind::Whitespace, blanks_end(s, Pos(low + 1))),
        b'\n' => (ItemKind::Newline, Pos(low + 1)),
        b'\r' if byte_is(s, Pos(low + 1), b'\n') => (ItemKind::Newline, Pos(low + 2)),
        _ => return None,
    };
    Some(Item { kind, end })
}

// One item after another, line ends too or not.
fn skip(s: &[u8], at: Pos, met: bool, lines: bool) -> Skip
    requires { at.0 ≤ length s.now }
    ensures { Skips (trivia_of lines) s.now at.0 met result }
{
    let mut i = at.0;
    let mut m = met;
    // A turn goes on from the end of a piece, here and in `list_items`, so neither is a `for`.
    loop {
        let Some(item) = trivia_item(s, Pos(i)) else {
            return Skip { at: Pos(i), met: m };
        };
        if (item.kind == ItemKind::Newline) & !lines {
            return Skip { at: Pos(i), met: m };
        }
        i = item.end.0;
        m = m | (item.kind == ItemKind::Unterminated);
        if bare(s, Pos(i), lines) {
            return Skip { at: Pos(i), met: m };
        }
    }
}

// No trivia starts here, as most often: a byte above the space that is no slash tells so, on one line a line feed too.
fn bare(s: &[u8], at: Pos, lines: bool) -> bool
    ensures { result ≡ true → Nothing lines s.now at.0 }
{
    match s.get(at.0) {
        Some(b'\n') => !lines,
        Some(b) => (b' ' < *b) & (*b != b'/'),
        None => false,
    }
}

// Trivia of one line, as ws reads it; `met` is that an open comment was met before.
pub fn trivia(s: &[u8], at: Pos, met: bool) -> Skip
    requires { at.0 ≤ length s.now }
    ensures { Skips trivia s.now at.0 met result }
{
    if bare(s, at, false) {
        return Skip { at, met };
    }
    skip(s, at, met, false)
}

// Trivia of several lines, as mws reads it.
pub fn multiline_trivia(s: &[u8], at: Pos, met: bool) -> Skip
    requires { at.0 ≤ length s.now }
    ensures { Skips multiline_trivia s.now at.0 met result }
{
    if bare(s, at, true) {
        return Skip { at, met };
    }
    skip(s, at, met, true)
}

// Where the first byte of 128 or more stands. Most often there is none, which `is_ascii` tells many bytes at a time.
pub fn first_high(s: &[u8]) -> Option<Pos>
    ensures { high_of result ≡ first_high 0 s.now }
{
    if s.is_ascii() {
        return None;
    }
    let i = high_place(s)?;
    Some(Pos(i))
}

fn high_place(s: &[u8]) -> Option<usize>
    ensures { result ≡ position (λ b. nat_le 128 b) s.now }
{
    s.iter().position(|b| 128 <= *b)
}

// An item's words in a table: kind, low, high.
const ITEM: usize = 3;

// How many items were listed, and where they end.
#[derive(Clone, Copy)]
struct Listing {
    count: usize,
    end: Pos,
}

// The items from the text's start on, in the table as far as it has room.
fn list_items(text: &[u8], table: &mut [u32]) -> Listing
    requires { length text.now ≤ max_text }
    ensures { Lists text.now table.new result }
{
    let mut i: usize = 0;
    let mut n: usize = 0;
    loop {
        let Some(item) = trivia_item(text, Pos(i)) else {
            return Listing {
                count: n,
                end: Pos(i),
            };
        };
        table::push::<ITEM>(table, n, &[item.kind.number(), i as u32, item.end.0 as u32]);
        i = item.end.0;
        n += 1;
    }
}

// The items of one trivia run. They are counted first with no table, since a text that is no run leaves the table as it was.
pub fn items(text: &[u8], table: &mut [u32]) -> Result<usize, ItemsError>
    ensures { listed (told result) table.new ≡ trivia_items text.now table.old }
{
    if MAX_TEXT < text.len() {
        return Err(ItemsError::TooLong(text.len()));
    }
    if let Some(at) = first_high(text) {
        return Err(ItemsError::HighByte(at.0));
    }
    let listing = list_items(text, &mut []);
    let end = listing.end.0;
    let n = listing.count;
    if end < text.len() {
        return Err(ItemsError::NoItem(end));
    }
    if table.len() / ITEM < n {
        table.fill(0);
        return Err(ItemsError::NoRoom(n));
    }
    list_items(text, table);
    table[n * ITEM..].fill(0);
    Ok(n)
}
