// The first of two bytes that matter to a scan, by blocks of sixteen bytes that hold neither.
#![tactic(auto, unfolding(crate::specs::Next::is_of))]

ghost use Rattle.std.specs.Prelude.{◌≡◌, true, ◌+◌, ◌≤◌, length};
ghost use Rattle.std.specs.List.{position};
ghost use Rattle.scans.specs.Next.{is_of, NoneOf, FoundOf};

use chars::offset::Offset;

fn is_of(c: u8, a: u8, b: u8) -> bool
    ensures { result ≡ is_of a b c }
{
    c == a || c == b
}

// Counted to the end and not up to the first: so sixteen bytes are compared at once.
// Stays: tried: by `filter` and `count` 2,000 bytes take 2,240 ns for 138, and quoted texts miss the 0.04 of the Rust's time that docs/SPEED.md has; `fold` is no plainer.
fn plain_block(text: &[u8], at: usize, a: u8, b: u8) -> bool
    requires { at + 16 ≤ length text.now }
    ensures { result ≡ true → NoneOf a b text.now at (at + 16) }
{
    let mut others: usize = 0;
    for i in 0..16 {
        if !is_of(text[at + i], a, b) {
            others += 1;
        }
    }
    others == 16
}

// Stays: no plainer by `as_chunks`: the blocks would be counted, and sixteen times their number added to the offset, which `at` is already.
fn over_blocks(text: &[u8], from: usize, a: u8, b: u8) -> usize
    requires { from ≤ length text.now }
    ensures { (from ≤ result) × (result ≤ length text.now) × NoneOf a b text.now from result }
{
    let mut at = from;
    while 16 <= text.len() - at && plain_block(text, at, a, b) {
        at += 16;
    }
    at
}

fn position_of(text: &[u8], a: u8, b: u8) -> Option<usize>
    ensures { result ≡ position (is_of a b) text.now }
{
    text.iter().position(|c| is_of(*c, a, b))
}

// Where the first of the two stands, from an offset on.
pub fn next_of(text: &[u8], from: Offset, a: u8, b: u8) -> Option<Offset>
    requires { from.0 ≤ length text.now }
    ensures { FoundOf a b text.now from.0 result }
{
    let at = over_blocks(text, from.0, a, b);
    let next = position_of(&text[at..], a, b)?;
    Some(Offset(at + next))
}
