// What goes on in a scan: the tests of the stop rules that the Rust hands to `scan_until`.
#![tactic(auto, using(crate::proofs::Classes::classes), unfolding(crate::specs::Scans::goes_on, crate::specs::Scans::in_charset, crate::specs::Scans::in_word, crate::specs::Scans::in_number, crate::specs::Scans::in_run))]

ghost use Rattle.std.specs.Prelude.{◌≡◌, ◌<◌};
ghost use Rattle.scans.specs.Ways.{pinned};
ghost use Rattle.scans.specs.Scans.{in_run, goes_on};
ghost use Rattle.scans.specs.declared.goes.Stop.{Stop};

use chars::class::{common_script, is_alphabetic, is_numeric};

// The stop rules that ask for a class of characters, as the definitions name them.
#[derive(Clone, Copy)]
pub enum Stop {
    Numerics,
    Charset,
    Word,
    Number,
}

// One of these rules: whether a scan by it goes on over an ASCII character, and over any.
pub trait StopRule {
    ghost stop: { Stop };

    fn ascii_goes_on(b: u8) -> bool
        requires { b < 0x80 }
        ensures { result ≡ goes_on pinned stop b };

    fn goes_on(c: u32) -> bool
        ensures { result ≡ goes_on pinned stop c };
}

// Rule 5: the numerics of a placeholder.
pub struct Numerics;

impl StopRule for Numerics {
    ghost stop = { Stop.Numerics };

    fn ascii_goes_on(b: u8) -> bool {
        b.is_ascii_digit()
    }

    fn goes_on(c: u32) -> bool {
        is_numeric(c)
    }
}

// Rule 8: the letters of a charset.
pub struct Charset;

impl StopRule for Charset {
    ghost stop = { Stop.Charset };

    fn ascii_goes_on(b: u8) -> bool {
        b.is_ascii_alphanumeric()
    }

    // The letters of common scripts first, which most words beyond ASCII are made of.
    fn goes_on(c: u32) -> bool {
        common_script(c) || is_alphabetic(c) || is_numeric(c)
    }
}

// Rule 9: the letters of a word.
pub struct Word;

impl StopRule for Word {
    ghost stop = { Stop.Word };

    // Letters first, then digits: so the most frequent take the fewest tests.
    // Stays: tried: by `matches!` a word of 200 letters takes 660 ns for 142, and short statements then miss half the Rust's time, the goal of docs/SPEED.md.
    fn ascii_goes_on(b: u8) -> bool {
        if b'a' <= b {
            return b <= b'z';
        }
        if b'A' <= b {
            return b <= b'Z' || b == b'_';
        }
        if b'0' <= b {
            return b <= b'9';
        }
        b == b'-'
    }

    fn goes_on(c: u32) -> bool {
        matches!(c, 0x5F | 0x2D) || Charset::goes_on(c)
    }
}

// Rule 10: the characters of a number.
pub struct Number;

impl StopRule for Number {
    ghost stop = { Stop.Number };

    // Digits first.
    fn ascii_goes_on(b: u8) -> bool {
        matches!(b, b'0'..=b'9') || matches!(b, b'.' | b'x' | b'X' | b'b' | b'B')
    }

    fn goes_on(c: u32) -> bool {
        matches!(c, 0x2E | 0x78 | 0x58 | 0x62 | 0x42) || is_numeric(c)
    }
}

// Rule 7: what a run takes.
pub fn in_run(b: u8) -> bool
    ensures { result ≡ in_run b }
{
    matches!(b, b'=' | b'!' | b'>' | b'<')
}
