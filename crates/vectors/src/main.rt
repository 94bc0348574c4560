// Replays vectors through the call that reads a text, and compares. A line of the input is a case; tools/make-vector-cases makes them, and
// says what the fields are. Printed are the place of each case that differs, and how many of each kind are equal and how many differ.
#![tactic(auto)]

ghost use Rattle.std.specs.Prelude.{◌<◌};

use fields::Fields;
use output::Tally;
use parser::Reading;
use parser::error::ReadError;
use reading::{HasNumber, Refusal};
use std::alloc::Global;
use std::io;
use std::io::{BufWriter, Read, Write};

// The input is read in parts of so many bytes, one after the other, and no more parts than this. No case lies across two of them.
const PART: u64 = 65536;

const PARTS: usize = 64;

// What every word of the tables is before a call, so that one left alone is seen.
const FILL: u32 = 7;

// How many kinds of cases there are, and their names; the last stands for all.
const KINDS: usize = 9;

const NAMES: [&str; KINDS + 1] = [
    "public",
    "a level less",
    "a row less",
    "an error less",
    "a request less",
    "from a state",
    "others",
    "in larger limits",
    "lines",
    "all",
];

// The starting state and the level limit.
#[derive(Clone, Copy)]
struct Start {
    scope: usize,
    swallow: bool,
    level: usize,
}

// Words of the three tables.
#[derive(Clone, Copy)]
struct Room {
    rows: usize,
    errors: usize,
    requests: usize,
}

fn main(rt: HostRuntime) -> io::Result<()> {
    let mut out = BufWriter::new(rt.alloc(), io::writer(&rt))?;
    let tallies = parts(rt.alloc(), &mut rt.reader(), &mut out)?;
    for (name, tally) in NAMES.iter().zip(&tallies) {
        let Tally { equal, different } = tally;
        writeln!(out, "{name} {equal} equal {different} different")?;
    }
    out.flush()
}

fn parts(
    alloc: Global,
    from: &mut impl Read,
    out: &mut impl Write,
) -> io::Result<[Tally; KINDS + 1]> {
    let mut tallies = [Tally::default(); KINDS + 1];
    for part in 0..PARTS {
        let mut input = Vec::new(alloc);
        if from.take(PART).read_to_end(&mut input)? == 0 {
            break;
        }
        cases(out, &input, part, &mut tallies)?;
    }
    Ok(tallies)
}

// A line that is empty, or a case.
fn cases(
    out: &mut impl Write,
    input: &[u8],
    part: usize,
    tallies: &mut [Tally; KINDS + 1],
) -> io::Result<()> {
    let mut text = [0u8; 65537];
    let mut at: usize = 0;
    let mut rest = input;
    for line in input.split_inclusive(|&b| b == b'\n') {
        if line != b"\n".as_slice() {
            let mut fields = Fields::within(rest, line.len());
            let kind = fields.number() % KINDS;
            let same = case(&mut fields, &mut text);
            if !same {
                writeln!(out, "different: part {part}, byte {at}")?;
            }
            tallies[kind].count(same);
            tallies[KINDS].count(same);
        }
        at = at.wrapping_add(line.len());
        rest = rest.get(line.len()..).unwrap_or(&[]);
    }
    Ok(())
}

// Whether a case is answered as expected, by just the fields of its line.
fn case(fields: &mut Fields, text: &mut [u8]) -> bool {
    let start = start_of(fields);
    let room = room_of(fields);
    let n = fields.number();
    let Some(text) = text.get_mut(..n) else {
        return false;
    };
    // The bytes that have digits, then blanks.
    text.fill(b' ');
    fields::put_hex(text, fields.before(b' '));
    read(fields, text, start, room) && fields.is_at_end()
}

fn start_of(fields: &mut Fields) -> Start {
    Start {
        scope: fields.number(),
        swallow: fields.number() == 1,
        level: fields.number(),
    }
}

fn room_of(fields: &mut Fields) -> Room {
    Room {
        rows: fields.number(),
        errors: fields.number(),
        requests: fields.number(),
    }
}

// Lends as many words of each table as the case says.
fn read(fields: &mut Fields, text: &[u8], start: Start, room: Room) -> bool {
    let mut rows = [FILL; 2048 * table::ROW];
    let mut errors = [FILL; 64 * table::ERROR];
    let mut requests = [FILL; 64 * table::REQUEST];
    let Some(rows) = rows.get_mut(..room.rows) else {
        return false;
    };
    let Some(errors) = errors.get_mut(..room.errors) else {
        return false;
    };
    let Some(requests) = requests.get_mut(..room.requests) else {
        return false;
    };
    let a = parser::read(
        text,
        start.scope,
        start.swallow,
        start.level,
        rows,
        errors,
        requests,
    );
    compare(fields, a, rows, errors, requests)
}

// Refusals 1 to 4 leave the tables, 5 to 8 zero them.
fn compare(
    fields: &mut Fields,
    reading: Result<Reading, ReadError>,
    rows: &[u32],
    errors: &[u32],
    requests: &[u32],
) -> bool {
    match reading {
        Ok(x) => answered(fields, x, rows, errors, requests),
        Err(e) => {
            let number = e.number();
            let word = if number <= 4 { FILL } else { 0 };
            fields.number() == number as usize
                && fields.number() == e.gives()
                && all(rows, word)
                && all(errors, word)
                && all(requests, word)
        }
    }
}

fn all(words: &[u32], word: u32) -> bool {
    words.iter().all(|&w| w == word)
}

// The counts and the end state, and the words.
fn answered(
    fields: &mut Fields,
    x: Reading,
    rows: &[u32],
    errors: &[u32],
    requests: &[u32],
) -> bool {
    fields.number() == 0
        && fields.number() == x.rows
        && fields.number() == x.errors
        && fields.number() == x.requests
        && fields.number() == x.scope
        && fields.number() == usize::from(x.swallow)
        && words(fields, rows, x.rows, table::ROW)
        && words(fields, errors, x.errors, table::ERROR)
        && words(fields, requests, x.requests, table::REQUEST)
}

// The words of so many records against the numbers that follow, and those behind them against zero.
fn words(fields: &mut Fields, table: &[u32], n: usize, width: usize) -> bool
    requires { 0 < width }
{
    table.iter().enumerate().all(|(i, &word)| {
        if i / width < n {
            fields.number() == word as usize
        } else {
            word == 0
        }
    })
}
