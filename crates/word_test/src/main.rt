// What is picked in some texts, each a row of cells of the same width: the cell, and the length and the detail of the word there.
#![tactic(auto)]

ghost use Rattle.std.specs.Prelude.{◌≤◌, length};

use std::io;
use std::io::{BufWriter, Write};
use table::Pos;
use word::{Word, mnemonic, operator};

fn with_operand(s: &[u8], at: Pos) -> Option<Word>
    requires { at.0 ≤ length s.now }
{
    mnemonic::mnemonic(s, at, false)
}

fn implied(s: &[u8], at: Pos) -> Option<Word>
    requires { at.0 ≤ length s.now }
{
    mnemonic::mnemonic(s, at, true)
}

fn show(out: &mut impl Write, cell: &[u8], w: Option<Word>) -> io::Result<()> {
    out.write_all(cell)?;
    match w {
        Some(w) => writeln!(out, " {} {}", w.length, w.detail),
        None => writeln!(out, " -"),
    }
}

// What is picked of each cell of a text. The last one is the rest of it, which is shorter and may be empty.
fn cells<F: Fn(&[u8], Pos) -> Option<Word>>(
    out: &mut impl Write,
    s: &[u8],
    width: usize,
    pick: F,
) -> io::Result<()>
    requires width { (1 ≤ width) × (width ≤ 9) }
    requires callable { (t : _) (at : _) → at.0 ≤ length t.now → F.pre pick t at }
{
    for i in (0..=s.len()).step_by(width) {
        let end = s.len().min(i + width);
        show(out, &s[i..end], pick(s, Pos(i)))?;
    }
    Ok(())
}

fn main(rt: HostRuntime) -> io::Result<()> {
    let mut out = BufWriter::new(rt.alloc(), io::writer(&rt))?;
    cells(&mut out, b"< > <=?x<", 2, operator::modifier)?;
    cells(
        &mut out,
        b"* / % <<>>^ < > <>&*+ <",
        2,
        operator::term_operator,
    )?;
    cells(
        &mut out,
        b"+ - ==!=>=<=> < &&||= ! & | =>x >",
        2,
        operator::expression_operator,
    )?;
    cells(
        &mut out,
        b"ascii    petscii  petscreenASCII    PetScii  PETSCREENasci     petscrEnapetscree",
        9,
        word::encoding,
    )?;
    cells(
        &mut out,
        b"adcandaslbccbcsbeqbitbmibnebplbvcbvscmpcpxcpydeceorincjmpjsrldaldxldylsrorarolrorsbcstastxsty",
        3,
        with_operand,
    )?;
    cells(
        &mut out,
        b"ADCANDASLBCCBCSBEQBITBMIBNEBPLBVCBVSCMPCPXCPYDECEORINCJMPJSRLDALDXLDYLSRORAROLRORSBCSTASTXSTY",
        3,
        with_operand,
    )?;
    cells(
        &mut out,
        b"aslbrkclccldcliclvdexdeyinxinylsrnopphaphpplaplprolrorrtirtssecsedseitaxtaytsxtxatxstya",
        3,
        implied,
    )?;
    cells(
        &mut out,
        b"ASLBRKCLCCLDCLICLVDEXDEYINXINYLSRNOPPHAPHPPLAPLPROLRORRTIRTSSECSEDSEITAXTAYTSXTXATXSTYA",
        3,
        implied,
    )?;
    cells(&mut out, b"lDaBrKnopadd12 a}cad", 3, with_operand)?;
    cells(&mut out, b"nOpldaa}cAslxyz[LC", 3, implied)?;
    out.flush()
}
