// One token: a small reader for each rule, and the choice among them. A reader is called from one place, so that it stands in the loop.
// Stays: a text and an offset apart: no plainer as a struct: the readers ask three facts of where they stand (`Readable`, `Ascii`, `Leads`), and scans takes both.
ghost use Rattle.std.specs.Prelude.{◌≡◌, ◌+◌, ◌≤◌, ◌<◌, length};
ghost use Rattle.chars.specs.Steps.{offset};
ghost use Rattle.tokens.specs.Named as named;
ghost use Rattle.tokens.specs.Slots.{bare};
ghost use Rattle.tokens.specs.Answers.{limit};
ghost use Rattle.scans.specs.Ways.{pinned};
ghost use Rattle.lexer.specs.Rules.{quoted, line, block, numbered, run, charset, word, number, unknown, read_one, starts_word, starts_number};
ghost use Rattle.scans.specs.Whole.{star_before, Readable};
ghost use Rattle.lexer.specs.Read.{part_of, taken, read_by, Ascii, Leads, NumberFrom};

use crate::rule::{Rule, State, rule_at};
use chars::offset::Offset;
use chars::utf8::{Step, step_at};
use scans::ends::{
    block_end, charset_end, line_end, number_end, numerics_end, quote_end, run_end, word_end,
};
use tokens::kind::Kind;
use tokens::slot::Slot;
use words::guess::Sort;
use words::known::{known_kind, zero_kind};

// A token that was read, and the offset after it.
#[derive(Clone, Copy, PartialEq, Eq, Debug)]
pub struct Taken {
    pub slot: Slot,
    pub next: Offset,
}

// A token that carries a start and an end offset.
fn part(kind: Kind, start: Offset, end: Offset) -> Slot
    requires { (start.0 ≤ limit) × (end.0 ≤ limit) }
    ensures { result ≡ part_of (named.number kind) start.0 end.0 }
{
    Slot {
        kind: u32::from(kind),
        first: start.0 as u32,
        second: end.0 as u32,
    }
}

// Rule 1: the content without its quotes.
// Stays: a reader for each rule, no plainer as one: they differ in the scan, the kind and where the slice begins, and each has the rule's own clause.
fn read_quoted(text: &[u8], at: Offset, kind: Kind) -> Option<Taken>
    requires { Ascii text.now at.0 }
    ensures { result ≡ read_by (quoted (named.number kind)) text.now at.0 }
{
    let i = at.0;
    let from = Offset(i + 1);
    let end = quote_end(text, from, text[i]);
    if end.0 < text.len() {
        return Some(Taken {
            slot: part(kind, from, end),
            next: Offset(end.0 + 1),
        });
    }
    Some(Taken {
        slot: part(kind, from, end),
        next: end,
    })
}

// Rule 2.
fn read_line(text: &[u8], at: Offset) -> Option<Taken>
    requires { Ascii text.now at.0 }
    ensures { result ≡ read_by (λ c cs. line cs) text.now at.0 }
{
    let end = line_end(text, Offset(at.0 + 1));
    Some(Taken {
        slot: part(Kind::Comment, at, end),
        next: end,
    })
}

// Whether `*` is the byte before an offset.
fn star_before(text: &[u8], at: Offset) -> bool
    requires { at.0 < length text.now }
    ensures { result ≡ star_before text.now at.0 }
{
    let i = at.0;
    i != 0 && text[i - 1] == b'*'
}

// Rule 3.
fn read_block(text: &[u8], at: Offset) -> Option<Taken>
    requires { Ascii text.now at.0 }
    ensures { result ≡ read_by (λ c cs. block (star_before text.now at.0) cs) text.now at.0 }
{
    let end = block_end(text, Offset(at.0 + 1), star_before(text, at));
    Some(Taken {
        slot: part(Kind::Comment, at, end),
        next: end,
    })
}

// Rules 4 and 6: one ASCII character.
fn read_single(at: Offset, kind: Kind) -> Option<Taken>
    requires { at.0 < limit }
    ensures { result ≡ taken (bare (named.number kind)) (offset (at.0 + 1)) }
{
    Some(Taken {
        slot: kind.bare(),
        next: Offset(at.0 + 1),
    })
}

// Rule 5.
fn read_numbered(text: &[u8], at: Offset) -> Option<Taken>
    requires { Ascii text.now at.0 }
    ensures { result ≡ read_by (λ c cs. numbered pinned cs) text.now at.0 }
{
    let end = numerics_end(text, Offset(at.0 + 1));
    Some(Taken {
        slot: part(Kind::NumberedPlaceholder, at, end),
        next: end,
    })
}

// Rule 7: a run that is not recognised stops the reading.
fn read_run(text: &[u8], at: Offset) -> Option<Taken>
    requires { Ascii text.now at.0 }
    ensures { result ≡ read_by run text.now at.0 }
{
    let end = run_end(text, Offset(at.0 + 1));
    let (from, to) = (at.0, end.0);
    let kind = known_kind(Sort::Runs, &text[from..to])?;
    Some(Taken {
        slot: kind.bare(),
        next: end,
    })
}

// Rule 8: without its `_`.
fn read_charset(text: &[u8], at: Offset) -> Option<Taken>
    requires { Ascii text.now at.0 }
    ensures { result ≡ read_by (λ c cs. charset pinned cs) text.now at.0 }
{
    let from = Offset(at.0 + 1);
    let end = charset_end(text, from);
    Some(Taken {
        slot: part(Kind::Charset, from, end),
        next: end,
    })
}

// Rule 9: the first character goes on in a word as well.
fn read_word(text: &[u8], at: Offset) -> Option<Taken>
    requires { Leads (starts_word pinned) text.now at.0 }
    ensures { result ≡ read_by (word pinned) text.now at.0 }
{
    let end = word_end(text, at);
    let (from, to) = (at.0, end.0);
    match known_kind(Sort::Words, &text[from..to]) {
        Some(kind) => Some(Taken {
            slot: kind.bare(),
            next: end,
        }),
        None => Some(Taken {
            slot: part(Kind::Other, at, end),
            next: end,
        }),
    }
}

// Rule 10: past a `-`; any other first character goes on in a number as well.
fn number_from(text: &[u8], at: Offset) -> Offset
    requires { Leads (starts_number pinned) text.now at.0 }
    ensures { NumberFrom text.now at.0 result.0 }
{
    let i = at.0;
    if text[i] == b'-' {
        return Offset(i + 1);
    }
    at
}

fn read_number(text: &[u8], at: Offset) -> Option<Taken>
    requires { Leads (starts_number pinned) text.now at.0 }
    ensures { result ≡ read_by (number pinned) text.now at.0 }
{
    let end = number_end(text, number_from(text, at));
    let (from, to) = (at.0, end.0);
    match zero_kind(&text[from..to]) {
        Some(kind) => Some(Taken {
            slot: kind.bare(),
            next: end,
        }),
        None => Some(Taken {
            slot: part(Kind::Numeric, at, end),
            next: end,
        }),
    }
}

// Rule 11.
fn read_unknown(text: &[u8], at: Offset) -> Option<Taken>
    ensures { result ≡ read_by (λ c cs. unknown c) text.now at.0 }
{
    match step_at(text, at) {
        Step::Char(c, next) => {
            let slot = Slot {
                kind: u32::from(Kind::Unknown),
                first: c,
                second: 0,
            };
            Some(Taken { slot, next })
        }
        Step::Bad | Step::End => None,
    }
}

// The token at an offset.
pub fn read_one(text: &[u8], at: Offset, state: State) -> Option<Taken>
    requires { Readable text.now at.0 }
    ensures { result ≡ read_by (read_one pinned (star_before text.now at.0) state) text.now at.0 }
{
    // Stays: no plainer as closures: an enum with one `match`, whose arms stand in the order of the rules.
    match rule_at(text, at, state) {
        Rule::Quoted(kind) => read_quoted(text, at, kind),
        Rule::Line => read_line(text, at),
        Rule::Block => read_block(text, at),
        Rule::Single(kind) => read_single(at, kind),
        Rule::Numbered => read_numbered(text, at),
        Rule::Run => read_run(text, at),
        Rule::Charset => read_charset(text, at),
        Rule::Word => read_word(text, at),
        Rule::Number => read_number(text, at),
        Rule::Unknown => read_unknown(text, at),
    }
}
