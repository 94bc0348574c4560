// The import loop: reads a pass table from standard input and prints the numbers of its top rows, first to last. Each is worked out where its
// digits stand, in the table's own bytes; one that has no value is printed as its refusal, with its place.
#![tactic(auto)]

ghost use Rattle.std.specs.Prelude.{◌≡◌, ◌≤◌, length, IfSome};
ghost use Rattle.reading.specs.Number.{number_value};
ghost use Rattle.number.specs.Answers.{base_of, told};
ghost use Rattle.number.specs.Part.{part_of};

use number::{NumberType, ValueError};
use reading::{HasNumber, Refusal};
use std::io;
use std::io::{BufWriter, Read, Write};
use table::{ERROR, Kind, REQUEST, ROW, column};

// One byte more than the longest text is read: of a longer table the refusal gives 65,537 as its length.
fn main(rt: HostRuntime) -> io::Result<()> {
    let mut out = BufWriter::new(rt.alloc(), io::writer(&rt))?;
    let mut text = Vec::new(rt.alloc());
    rt.reader().take(65537).read_to_end(&mut text)?;
    import(&mut out, &text)?;
    out.flush()
}

// Room for 65,536 rows, 4,096 errors and 4,096 requests; level 64; from scope 0 with the flag clear.
fn import(out: &mut impl Write, text: &[u8]) -> io::Result<()> {
    let mut words = [0u32; 65536 * ROW];
    let mut errors = [0u32; 4096 * ERROR];
    let mut requests = [0u32; 4096 * REQUEST];
    let r = parser::read(text, 0, false, 64, &mut words, &mut errors, &mut requests);
    let x = match r {
        Ok(x) => x,
        Err(e) => return output::refusal(out, &e),
    };
    top_rows(out, text, &words, x.rows)
}

// Room for 65,537 top rows, one for each byte and the Eof.
fn top_rows(out: &mut impl Write, text: &[u8], words: &[u32], count: usize) -> io::Result<()> {
    let mut roots = [0usize; 65537];
    match rows::tops(words, count, &mut roots) {
        Ok(n) => lines(out, text, words, &roots, n),
        Err(e) => output::refusal(out, &e),
    }
}

// A line for each of so many top rows; that the table holds so many only the definition of the answer says. A subtree begins behind the one before.
fn lines(
    out: &mut impl Write,
    text: &[u8],
    words: &[u32],
    roots: &[usize],
    n: usize,
) -> io::Result<()> {
    let (rows, _) = words.as_chunks::<ROW>();
    let mut first: usize = 0;
    for (i, &root) in roots.iter().enumerate().take(n) {
        let line = i + 1;
        write!(out, "row {line}:")?;
        if let Some(subtree) = rows.get(first..=root) {
            numbers(out, text, subtree)?;
        }
        writeln!(out)?;
        first = root.saturating_add(1);
    }
    Ok(())
}

fn numbers(out: &mut impl Write, text: &[u8], subtree: &[[u32; ROW]]) -> io::Result<()> {
    for (i, row) in subtree.iter().enumerate() {
        if row[column::KIND] == Kind::Number.number() {
            number(out, text, &subtree[..i])?;
        }
    }
    Ok(())
}

// The value of a number, or its refusal and its place.
fn number(out: &mut impl Write, text: &[u8], before: &[[u32; ROW]]) -> io::Result<()> {
    let Some(Digits { ty, low, high }) = digits_of(text, before) else {
        return out.write_all(b" no digits");
    };
    match value_of(ty, text, low, high) {
        Ok(v) => write!(out, " {v}"),
        Err(e) => {
            let code = e.number();
            write!(out, " refused {code} at {low}..{high}")
        }
    }
}

// The place of a number's digits, and their type.
#[derive(Clone, Copy)]
struct Digits {
    ty: NumberType,
    low: usize,
    high: usize,
}

// The rows of a number are its type (49), its digits (50) and itself (39), one behind the other. That a reading has them so, with places in its
// text, is tested here and not proved.
fn digits_of(text: &[u8], before: &[[u32; ROW]]) -> Option<Digits>
    ensures { IfSome result (λ d. (d.low ≤ d.high) × (d.high ≤ length text.now)) }
{
    let [.., mark, digits] = before else {
        return None;
    };
    let ty = NumberType::try_from(mark[column::DETAIL]).ok()?;
    let low = digits[column::LOW] as usize;
    let high = digits[column::HIGH] as usize;
    let told = mark[column::KIND] == Kind::NumberType.number()
        && digits[column::KIND] == Kind::NumberText.number();
    (told && low <= high && high <= text.len()).then_some(Digits { ty, low, high })
}

// The value of the digits from low to high. They are not copied: the part that is lent is the text's.
fn value_of(ty: NumberType, text: &[u8], low: usize, high: usize) -> Result<u64, ValueError>
    requires { (low ≤ high) × (high ≤ length text.now) }
    ensures { told result ≡ number_value (base_of ty) (part_of low high text.now) }
{
    number::value(ty, &text[low..high])
}
