// chars for C and Rust to link: numbers and a #[repr(C)] struct in place of the enums.
#![tactic(auto)]

ghost use Rattle.std.specs.Prelude.{◌≡◌, length};
ghost use Rattle.chars.specs.Class.{alphabetic, numeric};
ghost use Rattle.chars.specs.Utf8.{first_bad};
ghost use Rattle.chars.specs.Steps.{step_at, offset};
ghost use Rattle.chars_c.specs.Outside.{up_to, numbers};

use chars::class::{is_alphabetic, is_numeric};
use chars::offset::Offset;
use chars::utf8::{BadAt, Step, step_at, validate};

#[unsafe(no_mangle)]
pub extern "C" fn hay_is_alphabetic(c: u32) -> bool
    ensures { result ≡ alphabetic c }
{
    is_alphabetic(c)
}

#[unsafe(no_mangle)]
pub extern "C" fn hay_is_numeric(c: u32) -> bool
    ensures { result ≡ numeric c }
{
    is_numeric(c)
}

// The offset of the first bad byte, or the text's length.
#[unsafe(no_mangle)]
pub extern "C" fn hay_valid_up_to(text: &[u8]) -> usize
    ensures { result ≡ up_to (length text.now) (first_bad text.now) }
{
    match validate(text) {
        Ok(()) => text.len(),
        Err(BadAt(at)) => at.0,
    }
}

// Stays: the C interface, include/hayrumble.h and tools that link chars, reads a status and not an enum.
// A step as numbers. Status 0: a character, its scalar value and the offset after it; 1: a byte at which none starts; 2: the end.
#[repr(C)]
#[derive(Clone, Copy)]
pub struct HayStep {
    pub status: u32,
    pub scalar: u32,
    pub next: usize,
}

// The step at an offset.
#[unsafe(no_mangle)]
pub extern "C" fn hay_step(text: &[u8], at: usize) -> HayStep
    ensures { result ≡ numbers (step_at text.now (offset at)) }
{
    match step_at(text, Offset(at)) {
        Step::Char(scalar, next) => HayStep {
            status: 0,
            scalar,
            next: next.0,
        },
        Step::Bad => HayStep {
            status: 1,
            scalar: 0,
            next: 0,
        },
        Step::End => HayStep {
            status: 2,
            scalar: 0,
            next: 0,
        },
    }
}
