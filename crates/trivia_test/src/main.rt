// Runs trivia::items on texts and tables picked by hand, and prints each answer and the whole table. A table is sevens before the call.
#![tactic(auto)]

use reading::{HasNumber, Refusal};
use std::io;
use std::io::{BufWriter, Write};
use trivia::ItemsError;

fn main(rt: HostRuntime) -> io::Result<()> {
    let mut out = BufWriter::new(rt.alloc(), io::writer(&rt))?;
    one_line(&mut out)?;
    line_ends(&mut out)?;
    comments(&mut out)?;
    marks(&mut out)?;
    several(&mut out)?;
    lone_returns(&mut out)?;
    no_items(&mut out)?;
    no_room(&mut out)?;
    rooms(&mut out)?;
    high_bytes(&mut out)?;
    lengths(&mut out)?;
    out.flush()
}

fn one_line(out: &mut impl Write) -> io::Result<()> {
    six(out, b"empty", b"")?;
    six(out, b"blanks", b" \t ")?;
    six(out, b"block comment", b"/* a */")?;
    six(out, b"line comment", b"// a")?;
    six(out, b"open comment", b"/* a")
}

fn line_ends(out: &mut impl Write) -> io::Result<()> {
    six(out, b"LF", b"\n")?;
    six(out, b"CRLF", b"\r\n")?;
    six(out, b"two", b"\n\r\n")?;
    six(out, b"behind a line comment", b"//a\r\n")
}

fn comments(out: &mut impl Write) -> io::Result<()> {
    six(out, b"nested", b"/*/**/*/")?;
    six(out, b"nested, open", b"/*/**/")?;
    six(out, b"one behind the other", b"/**//**/")?;
    six(out, b"open behind a blank", b" /*")
}

fn marks(out: &mut impl Write) -> io::Result<()> {
    six(out, b"marks share no byte", b"/*/")?;
    six(out, b"marks share no byte, nested", b"/*/*/")?;
    six(out, b"stars", b"/***/")?;
    six(out, b"a line comment holds marks", b"///* */")
}

fn several(out: &mut impl Write) -> io::Result<()> {
    six(out, b"all", b"\r\n\n  // x\r\n/**//*")?;
    let mut table = [7u32; 21];
    show(
        out,
        b"all, with room",
        b"\r\n\n  // x\r\n/**//*",
        &mut table,
    )
}

fn lone_returns(out: &mut impl Write) -> io::Result<()> {
    six(out, b"CR alone", b"\r")?;
    six(out, b"CR behind a line comment", b"// a\r")
}

fn no_items(out: &mut impl Write) -> io::Result<()> {
    six(out, b"// at the end", b" //")?;
    six(out, b"// and LF", b"//\n")?;
    six(out, b"slash", b" / ")?;
    six(out, b"letter", b"nop")?;
    six(out, b"letter behind a comment", b"/**/x")
}

fn no_room(out: &mut impl Write) -> io::Result<()> {
    let mut none = [7u32; 0];
    show(out, b"no room needed", b"", &mut none)?;
    show(out, b"no room, no item either", b" x", &mut none)?;
    show(out, b"no room", b" ", &mut none)
}

fn rooms(out: &mut impl Write) -> io::Result<()> {
    let mut short = [7u32; 5];
    show(out, b"room for one of two", b" \n", &mut short)?;
    let mut enough = [7u32; 6];
    show(out, b"room for two", b" \n", &mut enough)?;
    let mut odd = [7u32; 8];
    show(out, b"two words more", b" \n", &mut odd)?;
    let mut more = [7u32; 10];
    show(out, b"room for three", b" \n", &mut more)
}

fn high_bytes(out: &mut impl Write) -> io::Result<()> {
    six(out, b"byte 128", b" \x80 ")?;
    six(out, b"byte 255 in a comment", b"/* \xff")?;
    six(out, b"byte 128 behind what starts no item", b"x\x80")
}

fn lengths(out: &mut impl Write) -> io::Result<()> {
    let longest = [32u8; 65536];
    six(out, b"65536 blanks", &longest)?;
    let longer = [200u8; 65537];
    six(out, b"65537 bytes of 200", &longer)
}

fn six(out: &mut impl Write, name: &[u8], text: &[u8]) -> io::Result<()> {
    let mut table = [7u32; 6];
    show(out, name, text, &mut table)
}

fn show(out: &mut impl Write, name: &[u8], text: &[u8], table: &mut [u32]) -> io::Result<()> {
    out.write_all(name)?;
    out.write_all(b": ")?;
    answer(out, trivia::items(text, table))?;
    words(out, table)?;
    out.write_all(b"\n")
}

fn answer(out: &mut impl Write, a: Result<usize, ItemsError>) -> io::Result<()> {
    match a {
        Ok(n) => write!(out, "items {n};"),
        Err(e) => write!(out, "refusal {} {};", e.number(), e.gives()),
    }
}

fn words(out: &mut impl Write, table: &[u32]) -> io::Result<()> {
    for word in table {
        write!(out, " {word}")?;
    }
    Ok(())
}
