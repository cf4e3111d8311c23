// UTF-8 by RFC 3629: one character at an offset, and the check of a whole text.
// Document 01, "Characters". The Rust has `char_indices` here; this steps through the lent bytes.
ghost use Rattle.std.specs.Prelude.{◌≡◌, ◌≤◌, ◌<◌, length, get_or, drop, fold, bit_or};
ghost use Rattle.chars.specs.Utf8.{front, follows, is_scalar, joined, ranged, width, first_bad};
ghost use Rattle.chars.specs.Steps.{scalar_of, size_of, following, fits_three, fits_four, barred, in_place, Settled, step_at, verdict_of};

use crate::offset::Offset;

// What stands at an offset: a character, as its scalar value and the offset after it; a byte at which none starts; or nothing.
// Stays: three ways, no plainer as an Option or a Result: `hay_step` of the C interface tells a bad byte from the end.
#[derive(Clone, Copy)]
pub enum Step {
    Char(u32, Offset),
    Bad,
    End,
}

// The first byte of the first bad sequence.
#[derive(Clone, Copy, PartialEq, Eq, Debug)]
pub struct BadAt(pub Offset);

// A scalar value: up to U+10FFFF, and no surrogate.
#[tactic(auto, using(crate::proofs::Bytes::scalars))]
pub fn is_scalar(c: u32) -> bool
    ensures { result ≡ is_scalar c }
{
    matches!(c, 0..=0xD7FF | 0xE000..=0x10FFFF)
}

// A following byte, 10xxxxxx: no character starts at it.
#[tactic(auto, using(crate::proofs::Bytes::mask_follows))]
pub fn is_following(b: u8) -> bool
    ensures { result ≡ follows b }
{
    (b & 0xC0) == 0x80
}

// How many bytes a scalar value takes.
#[tactic(auto, using(crate::proofs::Bytes::widths))]
pub fn width_of(c: u32) -> usize
    ensures { result ≡ width c }
{
    match c {
        0..=0x7F => 1,
        0x80..=0x7FF => 2,
        0x800..=0xFFFF => 3,
        _ => 4,
    }
}

// The first `count` bytes, where they follow, each joined to the lead byte's payload by a shift and a mask; none where they make no
// character.
fn sequence(rest: &[u8], count: usize, least: u32, lead: u32) -> Option<u32>
    requires { (count ≤ 3) × (lead < 32) }
    ensures { result ≡ scalar_of (ranged count least (joined count lead rest.now)) }
{
    let mut x = lead;
    for &b in rest.get(..count)? {
        if !is_following(b) {
            return None;
        }
        x = (x << 6) | ((b & 0x3F) as u32);
    }
    if least <= x && is_scalar(x) {
        Some(x)
    } else {
        None
    }
}

// The scalar value at an offset, joined from two to four bytes.
// Stays: text and offset stand apart, for what may not change: step_at, whose callers lend a whole text and count offsets into it.
fn scalar_at(text: &[u8], at: usize) -> Option<u32>
    requires { (at < length text.now) × (0x80 ≤ get_or text.now at 0) }
    ensures { result ≡ scalar_of (front (drop at text.now)) }
{
    let a = text[at];
    let rest = &text[at + 1..];
    match a {
        0xC0..=0xDF => sequence(rest, 1, 0x80, (a & 0x1F) as u32),
        0xE0..=0xEF => sequence(rest, 2, 0x800, (a & 0x0F) as u32),
        0xF0..=0xF7 => sequence(rest, 3, 0x10000, (a & 0x07) as u32),
        _ => None,
    }
}

// The character at an offset.
pub fn step_at(text: &[u8], offset: Offset) -> Step
    ensures { result ≡ step_at text.now offset }
{
    let at = offset.0;
    let Some(&a) = text.get(at) else {
        return Step::End;
    };
    if a < 0x80 {
        return Step::Char(a as u32, Offset(at + 1));
    }
    match scalar_at(text, at) {
        Some(x) => Step::Char(x, Offset(at + width_of(x))),
        None => Step::Bad,
    }
}

// All bits that some byte of the text has: below 0x80 where every byte is ASCII.
fn any_bits(text: &[u8]) -> u8
    ensures { result ≡ fold bit_or 0 text.now }
{
    text.iter().fold(0, |bits, b| bits | *b)
}

// The lead byte that may not stand before b: LOW before one below SPLIT, HIGH before another.
fn barred<const SPLIT: u8, const LOW: u8, const HIGH: u8>(b: u8) -> u8
    ensures { result ≡ barred SPLIT LOW HIGH b }
{
    if b < SPLIT { LOW } else { HIGH }
}

// Whether a lead byte and the byte after it start a character of three bytes: nothing overlong, and no surrogate.
#[tactic(auto, using(crate::proofs::Blocks::three_fits))]
fn fits_three(a: u8, b: u8) -> bool
    ensures { result ≡ fits_three a b }
{
    a != barred::<0xA0, 0xE0, 0xED>(b)
}

// The same for four bytes: nothing overlong, and nothing above U+10FFFF.
// Stays: no plainer as one function with fits_three: four bytes alone have the bound 0xF5.
#[tactic(auto, using(crate::proofs::Blocks::four_fits))]
fn fits_four(a: u8, b: u8) -> bool
    ensures { result ≡ fits_four a b }
{
    (a != barred::<0x90, 0xF0, 0xF4>(b)) & (a < 0xF5)
}

// The byte at an offset, where it follows.
#[tactic(auto, using(crate::proofs::Joining::following_end, crate::proofs::Joining::following_at))]
fn following(text: &[u8], at: usize) -> Option<u8>
    ensures { result ≡ following (drop at text.now) }
{
    let b = *text.get(at)?;
    if is_following(b) { Some(b) } else { None }
}

// How many bytes the character at an offset takes. No value is joined.
fn width_at(text: &[u8], at: usize) -> Option<usize>
    requires { at < length text.now }
    ensures { result ≡ size_of (front (drop at text.now)) }
{
    let a = text[at];
    if a < 0x80 {
        return Some(1);
    }
    if a < 0xC2 {
        return None;
    }
    let b = following(text, at + 1)?;
    if a < 0xE0 {
        return Some(2);
    }
    following(text, at + 2)?;
    if a < 0xF0 {
        return if fits_three(a, b) { Some(3) } else { None };
    }
    following(text, at + 3)?;
    if fits_four(a, b) { Some(4) } else { None }
}

// Whether b is in place after p3, p2 and p1. It is compiled without a branch, so that the loop below becomes vector instructions.
#[tactic(auto, unfolding(crate::specs::Steps::in_place))]
fn in_place(p3: u8, p2: u8, p1: u8, b: u8) -> bool
    ensures { result ≡ in_place p3 p2 p1 b }
{
    let lead = 0xC0 <= p1;
    let due = lead | (0xE0 <= p2) | (0xF0 <= p3);
    (due == is_following(b)) & (lead == (0xC2 <= p1)) & fits_three(p1, b) & fits_four(p1, b)
}

// An offset before which all is valid: where every byte of the whole blocks of 32 is in place, the start of the character that their end
// cuts, or their end; else 0. Vector instructions take whole blocks alone, and single bytes go quicker by widths.
fn settle_blocks(text: &[u8]) -> usize
    ensures { Settled text.now result }
{
    let end = text.len() - text.len() % 32;
    let blocks = &text[..end];
    let mut good = true;
    let mut p3 = 0;
    let mut p2 = 0;
    let mut p1 = 0;
    for &b in blocks {
        good &= in_place(p3, p2, p1, b);
        p3 = p2;
        p2 = p1;
        p1 = b;
    }
    if !good {
        0
    } else if 0xC0 <= p1 {
        end - 1
    } else if 0xE0 <= p2 {
        end - 2
    } else if 0xF0 <= p3 {
        end - 3
    } else {
        end
    }
}

// The check of a whole text: one that is all ASCII is settled at once, another by blocks, and what they leave is passed by widths.
pub fn validate(text: &[u8]) -> Result<(), BadAt>
    ensures { result ≡ verdict_of (first_bad text.now) }
{
    if any_bits(text) < 0x80 {
        return Ok(());
    }
    let mut at = settle_blocks(text);
    // Stays: no plainer as a `for`: each turn passes a whole character, and no iterator counts offsets by widths.
    while at < text.len() {
        let Some(width) = width_at(text, at) else {
            return Err(BadAt(Offset(at)));
        };
        at += width;
    }
    Ok(())
}
