// Mnemonics: a word of three letters is found by its hash, which is different for each word of a list.
ghost use Rattle.std.specs.Prelude.{◌≡◌, ◌≤◌, ◌<◌, ◌^◌, length, drop};
ghost use Rattle.cursor.specs.Word.{first_word};
ghost use Rattle.reading.specs.Mnemonic.{mnemonics, implied_mnemonics};
ghost use Rattle.word.specs.Hash.{entry_at, detail_of};
ghost use Rattle.word.specs.Words.{picked_of, mnemonic_list};

use crate::{Word, lower};
use table::Pos;

// The word with a hash, its detail before its letters, of those that may have an operand; 0 where there is none. A `match` this dense is
// compiled to a table; an array would be built anew at each call.
#[tactic(auto, unfolding(crate::specs::Hash::entry_at))]
fn operand_entry(hash: u64) -> u64
    ensures { result ≡ entry_at mnemonics hash }
{
    match hash {
        0 => 0x0a_62706c, // bpl
        1 => 0x1d_6a7372, // jsr
        3 => 0x13_637078, // cpx
        4 => 0x0d_627673, // bvs
        5 => 0x21_6c7372, // lsr
        6 => 0x15_646563, // dec
        8 => 0x12_636d70, // cmp
        9 => 0x14_637079, // cpy
        13 => 0x03_61736c, // asl
        14 => 0x06_626571, // beq
        16 => 0x01_616463, // adc
        19 => 0x29_726f72, // ror
        22 => 0x2c_736263, // sbc
        23 => 0x1c_6a6d70, // jmp
        25 => 0x1f_6c6478, // ldx
        28 => 0x1e_6c6461, // lda
        29 => 0x07_626974, // bit
        31 => 0x20_6c6479, // ldy
        32 => 0x08_626d69, // bmi
        34 => 0x04_626363, // bcc
        36 => 0x31_737478, // stx
        39 => 0x30_737461, // sta
        42 => 0x32_737479, // sty
        45 => 0x0c_627663, // bvc
        50 => 0x28_726f6c, // rol
        51 => 0x02_616e64, // and
        55 => 0x18_656f72, // eor
        57 => 0x05_626373, // bcs
        58 => 0x09_626e65, // bne
        62 => 0x19_696e63, // inc
        63 => 0x23_6f7261, // ora
        _ => 0,
    }
}

// The same of those that may be implied.
#[tactic(auto, unfolding(crate::specs::Hash::entry_at))]
fn implied_entry(hash: u64) -> u64
    ensures { result ≡ entry_at implied_mnemonics hash }
{
    match hash {
        5 => 0x21_6c7372, // lsr
        6 => 0x2f_736569, // sei
        7 => 0x2b_727473, // rts
        10 => 0x37_747873, // txs
        13 => 0x03_61736c, // asl
        17 => 0x2a_727469, // rti
        18 => 0x0e_636c63, // clc
        19 => 0x29_726f72, // ror
        23 => 0x0f_636c64, // cld
        24 => 0x38_747961, // tya
        26 => 0x0b_62726b, // brk
        27 => 0x33_746178, // tax
        32 => 0x34_746179, // tay
        35 => 0x26_706c61, // pla
        36 => 0x24_706861, // pha
        38 => 0x2d_736563, // sec
        40 => 0x36_747861, // txa
        43 => 0x2e_736564, // sed
        48 => 0x1a_696e78, // inx
        50 => 0x28_726f6c, // rol
        51 => 0x10_636c69, // cli
        52 => 0x27_706c70, // plp
        53 => 0x25_706870, // php
        54 => 0x1b_696e79, // iny
        55 => 0x35_747378, // tsx
        56 => 0x16_646578, // dex
        57 => 0x11_636c76, // clv
        61 => 0x17_646579, // dey
        63 => 0x22_6e6f70, // nop
        _ => 0,
    }
}

fn entry(hash: u64, implied: bool) -> u64
    ensures { result ≡ entry_at (mnemonic_list implied) hash }
{
    if implied {
        return implied_entry(hash);
    }
    operand_entry(hash)
}

// The detail of the word with these letters, 0 where there is none.
fn detail(letters: u64, implied: bool) -> usize
    requires { letters < 2 ^ 24 }
    ensures { result ≡ detail_of (mnemonic_list implied) letters }
{
    let e = entry(letters * 2850321 / 524288 % 64, implied);
    if e % 16777216 != letters {
        return 0;
    }
    (e / 16777216) as usize
}

// The mnemonic at a place, of the words that may have an operand or of the implied ones.
pub fn mnemonic(s: &[u8], at: Pos, implied: bool) -> Option<Word>
    requires { at.0 ≤ length s.now }
    ensures { result ≡ picked_of (first_word (mnemonic_list implied) (drop at.0 s.now)) }
{
    let i = at.0;
    if s.len() - i < 3 {
        return None;
    }
    let a = lower(s[i]) as u64;
    let b = lower(s[i + 1]) as u64;
    let c = lower(s[i + 2]) as u64;
    let d = detail(a * 65536 + b * 256 + c, implied);
    if d == 0 {
        return None;
    }
    Some(Word {
        length: 3,
        detail: d,
    })
}
