// Walks row tables picked by hand with table::walk, and prints each answer.
#![tactic(auto)]

use reading::{HasNumber, Refusal};
use std::io;
use std::io::{BufWriter, Write};

// The rows of `lda #1` and LF.
const ROWS: [u32; 63] = [
    46, 1, 0, 0, 3, 30, 1, 41, 1, 3, 4, 5, 35, 1, 49, 1, 5, 5, 5, 2, 1, 50, 1, 5, 5, 6, 0, 1, 39,
    3, 5, 5, 6, 0, 1, 34, 4, 5, 5, 6, 0, 1, 31, 6, 3, 4, 6, 2, 1, 14, 8, 0, 0, 6, 0, 1, 8, 1, 6, 7,
    7, 0, 2,
];

fn main(rt: HostRuntime) -> io::Result<()> {
    let mut out = BufWriter::new(rt.alloc(), io::writer(&rt))?;
    whole(&mut out)?;
    inside(&mut out)?;
    limits(&mut out)?;
    damaged(&mut out)?;
    out.flush()
}

// From the last row to the first: the Eof, the instruction, and no more.
fn whole(out: &mut impl Write) -> io::Result<()> {
    let rows = ROWS;
    show(out, b"nine rows", &rows, 9)?;
    show(out, b"eight", &rows, 8)?;
    show(out, b"none", &rows, 0)
}

// A count inside a subtree gives the subtree that ends there.
fn inside(out: &mut impl Write) -> io::Result<()> {
    let rows = ROWS;
    show(out, b"seven", &rows, 7)?;
    show(out, b"six", &rows, 6)?;
    show(out, b"one", &rows, 1)
}

// A table holds its length divided by 7 rows, rounded down.
fn limits(out: &mut impl Write) -> io::Result<()> {
    let rows = ROWS;
    show(out, b"ten of nine", &rows, 10)?;
    show(out, b"nine, one word short", &rows[..62], 9)?;
    show(out, b"eight, one word short", &rows[..62], 8)?;
    show(out, b"nine, no table", &rows[..0], 9)?;
    show(out, b"one, six words", &rows[..6], 1)?;
    show(out, b"one, seven words", &rows[..7], 1)?;
    show(out, b"the largest count", &rows, 18446744073709551615)
}

// Only the root's size is looked at.
fn damaged(out: &mut impl Write) -> io::Result<()> {
    let mut rows = ROWS;
    rows[57] = 0;
    show(out, b"size 0", &rows, 9)?;
    rows[57] = 9;
    show(out, b"size 9 of nine", &rows, 9)?;
    rows[57] = 10;
    show(out, b"size 10 of nine", &rows, 9)?;
    rows[57] = 4294967295;
    show(out, b"the largest size", &rows, 9)?;
    rows[56] = 4294967295;
    rows[57] = 2;
    rows[50] = 0;
    show(out, b"another kind, a damaged row below", &rows, 9)
}

fn show(out: &mut impl Write, label: &[u8], rows: &[u32], count: usize) -> io::Result<()> {
    out.write_all(label)?;
    match table::walk(rows, count) {
        Ok(x) => writeln!(out, ": root {}, before {}", x.root.0, x.before),
        Err(e) => writeln!(out, ": refused {} {}", e.number(), e.gives()),
    }
}
