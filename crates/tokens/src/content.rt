// The text of a token: a part of the caller's statement, handed out as a part of its slice. In the Rust, `Sql::buffer_content`.
ghost use Rattle.tokens.specs.Content.{HandsOut};

use chars::offset::Offset;

// Empty where the end is before the start, or either is beyond the text.
pub fn buffer_content(text: &[u8], start: Offset, end: Offset) -> &[u8]
    ensures { HandsOut text.entry start.0 end.0 result }
{
    let a = start.0;
    let b = end.0;
    if b < a {
        return &text[0..0];
    }
    if text.len() < b {
        return &text[0..0];
    }
    &text[a..b]
}
