// Characters: UTF-8 by RFC 3629, and the two classes that the reader asks of a scalar value.
// Document 01, "Characters (added module, first)". The Rust takes both from its standard library.
#![tactic(auto)]

pub mod class;
pub mod offset;
mod tables;
pub mod utf8;
