// Reads a pass table from standard input and prints its top rows, first to last, as the import loop walks them. Then what such a walk refuses.
#![tactic(auto)]

use reading::{HasNumber, Refusal};
use rows::TopsError;
use std::io;
use std::io::{BufWriter, Read, Write};
use table::{ERROR, REQUEST, ROW};

// The longest input; what lies behind it is not read.
const LONGEST: u64 = 4096;

fn main(rt: HostRuntime) -> io::Result<()> {
    let mut out = BufWriter::new(rt.alloc(), io::writer(&rt))?;
    let mut text = Vec::new(rt.alloc());
    rt.reader().take(LONGEST).read_to_end(&mut text)?;
    read(&mut out, &text)?;
    out.flush()
}

fn read(out: &mut impl Write, text: &[u8]) -> io::Result<()> {
    let mut words = [0u32; 512 * ROW];
    let mut errors = [0u32; 8 * ERROR];
    let mut requests = [0u32; 8 * REQUEST];
    let r = parser::read(text, 0, false, 32, &mut words, &mut errors, &mut requests);
    let Ok(x) = r else {
        return out.write_all(b"no reading\n");
    };
    whole(out, &words, x.rows)?;
    refusals(out, &words, x.rows)
}

// A line for each top row.
fn whole(out: &mut impl Write, words: &[u32], count: usize) -> io::Result<()> {
    let mut roots = [0usize; 512];
    match rows::tops(words, count, &mut roots) {
        Ok(n) => lines(out, words, &roots, n),
        Err(e) => refused(out, e),
    }
}

// So many top rows; that the table holds so many only the definition of the answer says.
fn lines(out: &mut impl Write, words: &[u32], roots: &[usize], n: usize) -> io::Result<()> {
    let (rows, _) = words.as_chunks::<ROW>();
    for (i, &root) in roots.iter().take(n).enumerate() {
        write!(out, "row {}", i + 1)?;
        if let Some([kind, size, _, low, high, _, _]) = rows.get(root) {
            writeln!(out, ": kind {kind}, bytes {low}..{high}, rows {size}")?;
        }
    }
    Ok(())
}

// Into three words that are not zero: too many top rows, too many rows, none, two top rows, and a count inside the second one.
fn refusals(out: &mut impl Write, words: &[u32], count: usize) -> io::Result<()> {
    show(out, b"all", words, count)?;
    if count < 512 {
        show(out, b"one more", words, count + 1)?;
    }
    show(out, b"513", words, 513)?;
    show(out, b"none", words, 0)?;
    show(out, b"eleven", words, 11)?;
    show(out, b"ten", words, 10)
}

fn show(out: &mut impl Write, label: &[u8], words: &[u32], count: usize) -> io::Result<()> {
    let mut roots = [9usize; 3];
    out.write_all(label)?;
    match rows::tops(words, count, &mut roots) {
        Ok(n) => write!(out, ": {n}"),
        Err(e) => refused(out, e),
    }?;
    let [a, b, c] = roots;
    writeln!(out, ", words {a} {b} {c}")
}

fn refused(out: &mut impl Write, e: TopsError) -> io::Result<()> {
    write!(out, ": refused {} {}", e.number(), e.gives())
}
