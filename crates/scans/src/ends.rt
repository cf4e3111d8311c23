// Where a scan ends: one function for each stop rule that the Rust hands to `scan_until`.
// Stays: a text and an offset apart, and no rest of the text: what may not change: the clause of `word_end`, as of the others, counts offsets into the whole text.
ghost use Rattle.std.specs.Prelude.{◌≡◌, ◌+◌, ◌≤◌, ◌<◌, length, drop};
ghost use Rattle.std.specs.List.{take_while};
ghost use Rattle.chars.specs.Steps.{offset};
ghost use Rattle.scans.specs.Ways.{pinned};
ghost use Rattle.scans.specs.Scans.{span, reach, quote_len, block_len, in_line, in_run, goes_on};
ghost use Rattle.scans.specs.Whole.{Whole};

use crate::goes::{Charset, Number, Numerics, Stop, StopRule, Word, in_run};
use crate::next::next_of;
use chars::offset::Offset;
use chars::utf8::{Step, step_at};

// By characters, from the first that is not ASCII on. Apart, so that its calls cost an ASCII text nothing.
#[inline(never)]
fn wide_end<R: StopRule>(text: &[u8], from: Offset) -> Offset
    ensures { result ≡ offset (reach (span (goes_on pinned R.stop)) text.now from.0) }
{
    let mut at = from;
    while let Step::Char(c, next) = step_at(text, at) {
        if !R::goes_on(c) {
            break;
        }
        at = next;
    }
    at
}

// Where a scan by a class of characters ends.
fn class_end<R: StopRule>(text: &[u8], from: Offset) -> Offset
    ensures { result ≡ offset (reach (span (goes_on pinned R.stop)) text.now from.0) }
{
    for at in from.0..text.len() {
        let b = text[at];
        if 0x80 <= b {
            return wide_end::<R>(text, Offset(at));
        }
        if !R::ascii_goes_on(b) {
            return Offset(at);
        }
    }
    Offset(from.0.max(text.len()))
}

// Rule 5: the numerics of a placeholder.
pub fn numerics_end(text: &[u8], from: Offset) -> Offset
    ensures { result ≡ offset (reach (span (goes_on pinned Stop.Numerics)) text.now from.0) }
{
    class_end::<Numerics>(text, from)
}

// Rule 8: the letters of a charset.
pub fn charset_end(text: &[u8], from: Offset) -> Offset
    ensures { result ≡ offset (reach (span (goes_on pinned Stop.Charset)) text.now from.0) }
{
    class_end::<Charset>(text, from)
}

// Rule 9: the letters of a word.
pub fn word_end(text: &[u8], from: Offset) -> Offset
    ensures { result ≡ offset (reach (span (goes_on pinned Stop.Word)) text.now from.0) }
{
    class_end::<Word>(text, from)
}

// Rule 10: the characters of a number.
pub fn number_end(text: &[u8], from: Offset) -> Offset
    ensures { result ≡ offset (reach (span (goes_on pinned Stop.Number)) text.now from.0) }
{
    class_end::<Number>(text, from)
}

// The rest goes by bytes: no byte of a longer character is below 0x80.
// Rule 1: the quote that closes. A backslash is passed with the character after it, so that the run before a quote is even.
fn far_quote_end(text: &[u8], from: Offset, quote: u8) -> Offset
    requires { from.0 ≤ length text.now }
    ensures { result ≡ offset (from.0 + quote_len quote (drop from.0 text.now)) }
{
    let mut at = from;
    while let Some(next) = next_of(text, at, quote, b'\\') {
        if text[next.0] == quote {
            return next;
        }
        at = Offset(text.len().min(next.0 + 2));
    }
    Offset(text.len())
}

// Most quoted texts are short, with no backslash: a look at a block, which the rest goes by, would cost them more than their few bytes.
pub fn quote_end(text: &[u8], from: Offset, quote: u8) -> Offset
    requires whole { Whole text.now from.0 }
    requires quote_bound { quote < 0x80 }
    ensures { result ≡ offset (reach (quote_len quote) text.now from.0) }
{
    let soon = text.len().min(from.0 + 16);
    for at in from.0..soon {
        let b = text[at];
        if b == quote {
            return Offset(at);
        }
        if b == b'\\' {
            return far_quote_end(text, Offset(at), quote);
        }
    }
    far_quote_end(text, Offset(soon), quote)
}

// Rule 2: the end of the line.
pub fn line_end(text: &[u8], from: Offset) -> Offset
    requires { Whole text.now from.0 }
    ensures { result ≡ offset (reach (span in_line) text.now from.0) }
{
    next_of(text, from, b'\n', b'\r').unwrap_or(Offset(text.len()))
}

// Rule 3: after the first `*` and `/`, where the `*` may stand before the comment.
pub fn block_end(text: &[u8], from: Offset, starred: bool) -> Offset
    requires { Whole text.now from.0 }
    ensures { result ≡ offset (reach (block_len starred) text.now from.0) }
{
    if starred {
        return from;
    }
    let mut at = from;
    while let Some(star) = next_of(text, at, b'*', b'*') {
        at = Offset(star.0 + 1);
        if at.0 < text.len() && text[at.0] == b'/' {
            return Offset(at.0 + 1);
        }
    }
    Offset(text.len())
}

fn run_len(bytes: &[u8]) -> usize
    ensures { result ≡ length (take_while in_run bytes.now) }
{
    bytes.iter().take_while(|b| in_run(**b)).count()
}

// Rule 7: the end of a run.
pub fn run_end(text: &[u8], from: Offset) -> Offset
    requires { Whole text.now from.0 }
    ensures { result ≡ offset (reach (span in_run) text.now from.0) }
{
    Offset(from.0 + run_len(&text[from.0..]))
}
