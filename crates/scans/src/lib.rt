// Where a scan over a text ends: what `scan_until` is in the Rust, with the stop rules that lexer.rs hands to it.
#![tactic(auto)]

pub mod ends;
pub mod goes;
mod next;
