// Lines, words and numerals: what a text is made of, whatever it says.
#![tactic(auto)]

pub mod numeral;
pub mod pieces;
