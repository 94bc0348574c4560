// Reads expressions, operands and config maps of the vectors, and prints their rows. A line of the input is the kind of the part (e, o, c), the
// place where it begins in two decimal digits, and the text in hexadecimal digits. The expected output is what the Rust gives.
#![tactic(auto)]

use cursor::{Cursor, Read, Stop};
use lexis::spot::{Line, Spot};
use std::io;
use std::io::{BufWriter, Read as _, Write};
use table::{Pos, ROW, RowIndex};

// The level limit of the listing program.
const LEVELS: usize = 32;

// The longest input; what lies behind it is not read.
const LONGEST: u64 = 65536;

fn main(rt: HostRuntime) -> io::Result<()> {
    let mut out = BufWriter::new(rt.alloc(), io::writer(&rt))?;
    let mut input = Vec::new(rt.alloc());
    rt.reader().take(LONGEST).read_to_end(&mut input)?;
    let mut rest = input.as_slice();
    for line in input.split_inclusive(|&b| b == b'\n') {
        case(&mut out, rest, line)?;
        rest = rest.get(line.len()..).unwrap_or(&[]);
    }
    out.flush()
}

// One line, the first of an input. The place's digits are those of the input, also where the line has none; the text's are the line's own.
fn case(out: &mut impl Write, input: &[u8], line: &[u8]) -> io::Result<()> {
    let line = line.strip_suffix(b"\n").unwrap_or(line);
    let [kind, tens, ones] = [0, 1, 2].map(|i| input.get(i).copied().unwrap_or(0));
    let low = usize::from(fields::digit(tens)) * 10 + usize::from(fields::digit(ones));
    let mut text = [0u8; 256];
    let n = fields::put_hex(&mut text, line.get(3..).unwrap_or(&[]));
    part(out, kind, &text[..n], low)
}

// Reads the part that begins at a place.
fn part(out: &mut impl Write, kind: u8, s: &[u8], low: usize) -> io::Result<()> {
    if s.len() < low || reading::MAX_TEXT < s.len() {
        return Ok(());
    }
    let mut rows = [0u32; 256 * ROW];
    let c = Cursor {
        at: Pos(low),
        count: RowIndex(0),
        met: false,
    };
    let p = Spot::<Line>::new(s, c);
    let r = match kind {
        b'e' => expression::expression(p, LEVELS, &mut rows),
        b'o' => operand::operand(p, LEVELS, &mut rows),
        _ => operand::config_map::config_map(s, c, LEVELS, &mut rows),
    };
    show(out, r, &rows)
}

fn show(out: &mut impl Write, r: Read, rows: &[u32]) -> io::Result<()> {
    match r {
        Ok(d) => {
            print_rows(out, rows, d.count.0)?;
            let end = d.at.0;
            writeln!(out, "end {end}")
        }
        Err(Stop::Miss(_)) => out.write_all(b"miss\n"),
        Err(Stop::Deep) => out.write_all(b"deep\n"),
    }
}

// So many rows, or as many as the table holds. The line is left out: it is filled in by the reader of a file alone.
fn print_rows(out: &mut impl Write, rows: &[u32], n: usize) -> io::Result<()> {
    let (rows, _) = rows.as_chunks::<ROW>();
    for [kind, size, tlow, low, high, detail, _] in rows.iter().take(n) {
        writeln!(out, "{kind} {size} {tlow} {low} {high} {detail}")?;
    }
    Ok(())
}
