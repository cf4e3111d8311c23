// The text of one token: its length, and its bytes. In the Rust, the arms of writer.rs.
ghost use Rattle.std.specs.Prelude.{true, false, ◌≡◌, ◌+◌, ◌≤◌, [], length};
ghost use Rattle.tokens.specs.Answers.{limit};
ghost use Rattle.tokens.specs.Formed.{carries_offsets, well_formed};
ghost use Rattle.tokens.specs.Kinds.{is_quoted};
ghost use Rattle.tokens.specs.Texts.{text_of};
ghost use Rattle.writer.specs.Written.{slice_of, token_text};
ghost use Rattle.writer.specs.Survey.{Grown};

use crate::copy::Page;
use crate::survey::OTHER;
use chars::offset::Offset;
use chars::utf8::width_of;
use tokens::content::buffer_content;
use tokens::formed::{carries_offsets, is_quoted};
use tokens::kind::Kind;
use tokens::slot::Slot;
use tokens::texts::fixed_text;

// The number of the one kind that carries a character.
// Stays: the C interface lends slots as words, and `token_len` is asked of slots that hold any number.
const UNKNOWN: u32 = Kind::Unknown as u32;

// The first kind whose text may have more than one byte: None and the marks before it are the most frequent.
// Stays: the C interface lends slots as words, and this is compared with the word.
const ELLIPSIS: u32 = Kind::Ellipsis as u32;

// The part of the statement that a token's offsets name.
fn slice_of(text: &[u8], slot: Slot) -> &[u8]
    ensures { result.now ≡ slice_of text.now slot }
{
    buffer_content(
        text,
        Offset(slot.first as usize),
        Offset(slot.second as usize),
    )
}

// The kinds whose text is their slice alone.
// Stays: the C interface lends slots as words, and `token_len` is asked of slots that hold any number.
const NUMERIC: u32 = Kind::Numeric as u32;

const NUMBERED_PLACEHOLDER: u32 = Kind::NumberedPlaceholder as u32;

// Whether a kind's text is its slice, with no mark: names, numbers and comments, which are the most frequent of those that carry offsets.
fn is_slice(kind: u32) -> bool
    ensures { result ≡ true → (carries_offsets kind ≡ true) × (is_quoted kind ≡ false) × (text_of kind ≡ []) }
{
    matches!(kind, OTHER | NUMERIC..=NUMBERED_PLACEHOLDER)
}

// How many bytes a token's text has. The kinds before Other first, which are the most frequent.
#[inline(always)]
pub fn token_len(text: &[u8], slot: Slot) -> usize
    requires { length text.now ≤ limit }
    ensures { result ≡ length (token_text text.now slot) }
{
    if slot.kind < OTHER {
        return fixed_text(slot.kind).len();
    }
    if is_slice(slot.kind) {
        return slice_of(text, slot).len();
    }
    if slot.kind == UNKNOWN {
        return width_of(slot.first);
    }
    if carries_offsets(slot.kind) {
        let mark = fixed_text(slot.kind).len();
        let slice = slice_of(text, slot).len();
        return if is_quoted(slot.kind) {
            mark + slice + mark
        } else {
            mark + slice
        };
    }
    fixed_text(slot.kind).len()
}

// A token's text. What was blanked and the marks first, which a sanitised list is full of, then the names and the words.
pub fn put_token(page: &mut Page, text: &[u8], slot: Slot)
    requires { (well_formed slot ≡ true) × (page.old.at + length (token_text text.now slot) ≤ length page.old.out.now) }
    ensures { Grown page.old (token_text text.now slot) page.new }
{
    if slot.kind < ELLIPSIS {
        return page.push_mark(fixed_text(slot.kind));
    }
    if is_slice(slot.kind) {
        return page.push_slice(slice_of(text, slot));
    }
    if slot.kind < OTHER {
        return page.push(fixed_text(slot.kind));
    }
    if slot.kind == UNKNOWN {
        return page.push_char(slot.first);
    }
    if carries_offsets(slot.kind) {
        let mark = fixed_text(slot.kind);
        page.push_mark(mark);
        page.push_slice(slice_of(text, slot));
        if is_quoted(slot.kind) {
            // The same mark closes it.
            page.push_mark(mark);
        }
    } else {
        page.push(fixed_text(slot.kind));
    }
}
