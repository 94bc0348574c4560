// Prints the reading of standard input, as document 01 has it: rows, errors, requests and the end state, or a refusal.
#![tactic(auto)]

ghost use Rattle.std.specs.Prelude.{◌<◌};

use parser::Reading;
use parser::error::ReadError;
use std::io;
use std::io::{BufWriter, Read, Write};

// The longest input; one byte more is read, to see that there is more.
const LONGEST: usize = 8192;

fn main(rt: HostRuntime) -> io::Result<()> {
    let mut out = BufWriter::new(rt.alloc(), io::writer(&rt))?;
    let mut text = Vec::new(rt.alloc());
    rt.reader().take(LONGEST as u64 + 1).read_to_end(&mut text)?;
    if LONGEST < text.len() {
        output::refusal(&mut out, &ReadError::TooLong(LONGEST))?;
    } else {
        listing(&mut out, &text)?;
    }
    out.flush()
}

// Room for 2,048 rows, 64 errors and 64 requests; level 32; from scope 0 with the flag clear.
fn listing(out: &mut impl Write, text: &[u8]) -> io::Result<()> {
    let mut rows = [0u32; 2048 * table::ROW];
    let mut errors = [0u32; 64 * table::ERROR];
    let mut requests = [0u32; 64 * table::REQUEST];
    let r = parser::read(text, 0, false, 32, &mut rows, &mut errors, &mut requests);
    let x = match r {
        Ok(x) => x,
        Err(e) => return output::refusal(out, &e),
    };
    out.write_all(b"kind size tlow low high detail line\n")?;
    records(out, &rows, x.rows, table::ROW)?;
    out.write_all(b"error low high\n")?;
    records(out, &errors, x.errors, table::ERROR)?;
    out.write_all(b"request low high\n")?;
    records(out, &requests, x.requests, table::REQUEST)?;
    end(out, x)
}

fn end(out: &mut impl Write, x: Reading) -> io::Result<()> {
    let scope = x.scope;
    let swallow = u8::from(x.swallow);
    writeln!(out, "scope swallow\n{scope} {swallow}")
}

// So many records of this width, a line each.
fn records(out: &mut impl Write, words: &[u32], n: usize, width: usize) -> io::Result<()>
    requires { 0 < width }
{
    for record in words.chunks_exact(width).take(n) {
        if let Some((last, front)) = record.split_last() {
            for word in front {
                write!(out, "{word} ")?;
            }
            writeln!(out, "{last}")?;
        }
    }
    Ok(())
}
