// Replays values of number texts, each a part in the middle of other bytes, and compares. A line of the input is a case; tools/make-value-cases
// makes them, and says what the fields are. Printed are the place of each case that differs, and for each name how many are equal and how many
// differ.
#![tactic(auto)]

use fields::Fields;
use number::{NumberType, ValueError};
use reading::{HasNumber, Refusal};
use std::io;
use std::io::{BufWriter, Read, Write};
use table::{ERROR, Kind, REQUEST, ROW, column};

// The longest input; what lies behind it is not read.
const LONGEST: u64 = 65536;

// So many bytes stand before a text, and so many behind it.
const MARGIN: usize = 32;

// A row of a reading, and how many numbers the reading has.
#[derive(Clone, Copy)]
struct Body {
    row: usize,
    numbers: usize,
}

// What is expected of a part. Where the text is read, the part is the body of a row, and the row before it has the detail.
#[derive(Clone, Copy)]
struct Expected {
    body: Option<Body>,
    detail: usize,
    ty: NumberType,
    low: usize,
    high: usize,
    answer: Result<u64, ValueError>,
}

fn main(rt: HostRuntime) -> io::Result<()> {
    let mut out = BufWriter::new(rt.alloc(), io::writer(&rt))?;
    let mut input = Vec::new(rt.alloc());
    let mut text = [0u8; 262144];
    rt.reader().take(LONGEST).read_to_end(&mut input)?;
    output::replay_within(&mut out, &input, |rest, line| case(rest, line, &mut text))?;
    out.flush()
}

// Between bytes that are digits in every base, and between bytes that are digits in none.
fn case(input: &[u8], line: usize, text: &mut [u8]) -> bool {
    between(input, line, b'1', text) & between(input, line, b'x', text)
}

// Lays the text between such bytes, and compares there.
fn between(input: &[u8], line: usize, around: u8, text: &mut [u8]) -> bool {
    let mut fields = Fields::within(input, line);
    let Some(expected) = expected_of(&mut fields) else {
        return false;
    };
    let low = fields::put(text, 0, MARGIN, around);
    let high = fields.runs(text, low);
    let end = fields::put(text, high, MARGIN, around);
    end < text.len() && compare(expected, &text[low..high])
}

// None where the type or the answer is none. Row 0 stands for a text that is not read.
fn expected_of(fields: &mut Fields) -> Option<Expected> {
    let row = fields.number();
    let numbers = fields.number();
    let detail = fields.number();
    Some(Expected {
        body: (row != 0).then_some(Body { row, numbers }),
        detail,
        ty: NumberType::try_from((detail % 256) as u32).ok()?,
        low: fields.number(),
        high: fields.number(),
        answer: answer_of(fields.number(), fields.number())?,
    })
}

// A value where the refusal is 0; or the refusal of that number, and what it gives.
fn answer_of(refusal: usize, value: usize) -> Option<Result<u64, ValueError>> {
    if refusal == 0 {
        return Some(Ok(value as u64));
    }
    [ValueError::NotANumber, ValueError::TooLarge]
        .into_iter()
        .find(|e| e.number() as usize == refusal && e.gives() == value)
        .map(Err)
}

fn compare(e: Expected, text: &[u8]) -> bool {
    e.body.is_none_or(|body| read(e, body, text)) && valued(e, text)
}

// The value of the part against what is expected.
fn valued(e: Expected, text: &[u8]) -> bool {
    text.get(e.low..e.high)
        .is_some_and(|part| number::value(e.ty, part) == e.answer)
}

// Whether the text's reading has so many numbers, and the row.
fn read(e: Expected, body: Body, text: &[u8]) -> bool {
    let mut rows = [0u32; 256 * ROW];
    let mut errors = [0u32; 64 * ERROR];
    let mut requests = [0u32; 64 * REQUEST];
    let r = parser::read(text, 0, false, 64, &mut rows, &mut errors, &mut requests);
    let Ok(x) = r else {
        return false;
    };
    let (rows, _) = rows.as_chunks::<ROW>();
    numbers(rows, x.rows) == body.numbers && has(rows, body.row, e)
}

fn numbers(rows: &[[u32; ROW]], count: usize) -> usize {
    rows.iter()
        .take(count)
        .filter(|row| row[column::KIND] == Kind::NumberText.number())
        .count()
}

// The row has the part's places, and the one before it the number's type.
fn has(rows: &[[u32; ROW]], row: usize, e: Expected) -> bool {
    let Some([.., mark, part]) = rows.get(..=row) else {
        return false;
    };
    mark[column::KIND] == Kind::NumberType.number()
        && mark[column::DETAIL] as usize == e.detail
        && part[column::KIND] == Kind::NumberText.number()
        && part[column::LOW] as usize == e.low
        && part[column::HIGH] as usize == e.high
}
