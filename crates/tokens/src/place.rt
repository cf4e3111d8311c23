// A token's place in its list, counted from 0. Places, byte offsets and character codes are counted apart (document 01, "Token slots").
#[derive(Clone, Copy, PartialEq, Eq, Debug)]
pub struct Place(pub usize);
