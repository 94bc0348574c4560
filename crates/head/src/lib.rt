// The parts of statements that report nothing but open comments, read without the state. Each begins behind the trivia before the
// statement, line ends included, which the statement's reader has skipped once.
#![tactic(auto)]

pub mod definition;
pub mod directive;
pub mod import;
pub mod instruction;
pub mod part;
