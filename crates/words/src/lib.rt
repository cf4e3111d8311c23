// The texts that have a kind of their own: the words, runs and beginnings of numbers that lexer.rs looks up (document 01, rules 7, 9 and 10).
#![tactic(auto)]

pub mod guess;
pub mod known;
pub mod laid;
pub mod table;
