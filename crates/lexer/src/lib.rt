// Reading a statement into tokens: what lexer.rs is in the Rust. Document 01, "lexer.rs: reading rules, first match wins".
#![tactic(auto)]

pub mod lex;
pub mod mark;
pub mod read;
pub mod rule;
