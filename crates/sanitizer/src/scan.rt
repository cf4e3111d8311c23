// Looking ahead and about in a list of tokens, with nothing changed: the two scans of the Rust's sanitiser, to the close of a scope and to
// the end of the rows of a collapse, apart from what they blank. Document 01, "sanitizer.rs"; specs/Scans.antt.
// Stays: `slots` and `count` apart: the C interface lends both.
ghost use Rattle.std.specs.Prelude.{◌≡◌, true, ◌≤◌, ◌<◌};
ghost use Rattle.tokens.specs.Slots.{room, slot_at, tokens_in};
ghost use Rattle.sanitizer.specs.Scans.{is_close, close_at, rows_at};
ghost use Rattle.sanitizer.specs.Run.{dotted};

use tokens::kind::Kind;
use tokens::place::Place;
use tokens::slot::slot_at;

// The numbers of the kinds that are looked for.
// Stays: the C interface lends slots as words, and `kind_at` answers the word that is there.
const SPACE: u32 = Kind::Space as u32;

const DOT: u32 = Kind::Dot as u32;

const COMMA: u32 = Kind::Comma as u32;

const PARENTHESE_OPEN: u32 = Kind::ParentheseOpen as u32;

const PARENTHESE_CLOSE: u32 = Kind::ParentheseClose as u32;

const SQUARE_BRACKET_CLOSE: u32 = Kind::SquareBracketClose as u32;

// The kind of the token at a place.
pub fn kind_at(slots: &[u32], place: Place) -> u32
    requires { place.0 < room slots.now }
    ensures { result ≡ (slot_at slots.now place.0).kind }
{
    slot_at(slots, place).kind
}

// Whether a Dot stands directly before or after a place. Place 0 has none before it, and the last none after.
pub fn is_dotted(slots: &[u32], count: usize, place: Place) -> bool
    requires { (place.0 < count) × (count ≤ room slots.now) }
    ensures { result ≡ dotted (tokens_in slots.now count) place.0 }
{
    let at = place.0;
    (at != 0 && kind_at(slots, Place(at - 1)) == DOT)
        || (at + 1 < count && kind_at(slots, Place(at + 1)) == DOT)
}

// Whether a kind is a close of either sort.
fn is_close(kind: u32) -> bool
    ensures { result ≡ is_close kind }
{
    kind == PARENTHESE_CLOSE || kind == SQUARE_BRACKET_CLOSE
}

// The place of the first close of either sort from a place on; the count, where there is none.
// Stays: the count stands for none: what may not change: `close_at` (specs/Scans.antt), and the turn goes on at it either way.
pub fn close_from(slots: &[u32], count: usize, from: Place) -> Place
    requires { (from.0 ≤ count) × (count ≤ room slots.now) }
    ensures { (result.0 ≡ close_at (tokens_in slots.now count) from.0) × (from.0 ≤ result.0) × (result.0 ≤ count) }
{
    for at in from.0..count {
        if is_close(kind_at(slots, Place(at))) {
            return Place(at);
        }
    }
    Place(count)
}

// The place after the stretch that a collapse blanks, from the place after its first open on.
pub fn rows_from(slots: &[u32], count: usize, from: Place) -> Place
    requires { (from.0 ≤ count) × (count ≤ room slots.now) }
    ensures { (result.0 ≡ rows_at true from.0 (tokens_in slots.now count) from.0) × (from.0 ≤ result.0) × (result.0 ≤ count) }
{
    // Stays: a project rule: document 01 names nested loops left by a label for this place (docs/DECISIONS.md, "Where each form goes").
    let start = from.0;
    let mut at = start;
    let mut end = start;
    'rows: loop {
        // Inside brackets all is blanked, up to the first close.
        'inside: loop {
            if at >= count {
                break 'rows Place(end);
            }
            let kind = kind_at(slots, Place(at));
            at += 1;
            end = at;
            if kind == PARENTHESE_CLOSE {
                break 'inside;
            }
        }
        // Outside, commas and spaces are blanked only if another round bracket follows.
        'outside: loop {
            if at >= count {
                break 'rows Place(end);
            }
            let kind = kind_at(slots, Place(at));
            match kind {
                PARENTHESE_OPEN => {
                    at += 1;
                    end = at;
                    break 'outside;
                }
                PARENTHESE_CLOSE => {
                    at += 1;
                    end = at;
                }
                SPACE | COMMA => {
                    at += 1;
                }
                _ => {
                    break 'rows Place(end);
                }
            }
        }
    }
}
