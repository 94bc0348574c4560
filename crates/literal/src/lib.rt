// Numbers and strings. Each is read behind the trivia of a line.
#![tactic(auto)]

pub mod numeral;
pub mod text;
