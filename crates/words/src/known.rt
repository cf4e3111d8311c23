// The lookup in the table of known texts: a guess by the length and the first two letters names the one row that the text can be, and the row's
// text confirms it.
ghost use Rattle.std.specs.Prelude.{◌≡◌, map, ◌≤◌, length, get_or};
ghost use Rattle.tokens.specs.Named.{Finds};
ghost use Rattle.words.specs.Known.{lower, key_of, known_kind};

use crate::guess::{Sort, guess_row};
use crate::table::Known;
use tokens::kind::Kind;

// How many letters the longest row has.
const LONGEST: usize = 9;

// A letter of a text, in lower case; 0 past its end.
// Stays: 0 and no Option: what may not change: `key_of` of specs/Known.antt reads 0 there.
fn letter(text: &[u8], m: usize) -> u8
    ensures { result ≡ get_or (map lower text.now) m 0 }
{
    text.get(m).map_or(0, |b| b.to_ascii_lowercase())
}

// The length of a text and its first two letters.
// Stays: tried: a `match` of the text itself is as fast, and its proof did not close (101 branches); `KNOWN.iter().find(..)` takes a name 42 ns for 16 (docs/SPEED.md).
fn key_of(text: &[u8]) -> u32
    requires { length text.now ≤ 9 }
    ensures { result ≡ key_of (map lower text.now) }
{
    u32::from_be_bytes([0, text.len() as u8, letter(text, 0), letter(text, 1)])
}

// The kind of a known text; None where it is none.
pub fn known_kind(sort: Sort, text: &[u8]) -> Option<Kind>
    ensures { Finds (known_kind sort text.now) result }
{
    if LONGEST < text.len() {
        return None;
    }
    let Known(row, kind) = guess_row(sort, key_of(text))?;
    text.eq_ignore_ascii_case(row).then_some(kind)
}

// Rule 10: the kind of the beginning of a number. Most numbers are none by their first byte.
pub fn zero_kind(text: &[u8]) -> Option<Kind>
    ensures { Finds (known_kind Sort.Zeros text.now) result }
{
    if !text.starts_with(b"0") {
        return None;
    }
    known_kind(Sort::Zeros, text)
}
