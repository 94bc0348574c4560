// The leaves of the reader that have rows: characters, names, words, paths, operators, mnemonics.
#![tactic(auto)]

pub mod identifier;
pub mod mark;
pub mod operator;
pub mod spot;
