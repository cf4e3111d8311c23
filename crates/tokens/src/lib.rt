// Kinds and slices: what lib.rs is in the Rust. The tokens by kind, their slots in a lent buffer, the part of the statement that a
// token stands for, and the refusals. Document 01, "Token slots", "Refusal numbers" and "lib.rs".
#![tactic(auto)]

pub mod check;
pub mod content;
pub mod formed;
pub mod kind;
pub mod place;
pub mod refusal;
pub mod slot;
pub mod texts;
