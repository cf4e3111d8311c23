// A byte offset into a text. Offsets, token places and character codes are counted apart (document 01, "Token slots").
#[derive(Clone, Copy, PartialEq, Eq, Debug)]
pub struct Offset(pub usize);
