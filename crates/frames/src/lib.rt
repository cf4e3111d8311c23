// From a line of hexadecimal to its frame, and the frame as the line that is printed. Document 01, "The program".
#![tactic(auto)]

ghost use Rattle.std.specs.Prelude.{◌≡◌, List, ℕ, ◌+◌, ◌*◌, ◌≤◌, ◌<◌, length};
ghost use Rattle.tokens.specs.Answers.{refused, refusal};
ghost use Rattle.frames.specs.Frames.{read_status, framed, in_numbers, FramesText, FramesLine, Leaves, printed, shown_over, longest, Prints, SameBuffers};
ghost use Rattle.writer.specs.Promise.{Put};

use crate::hex::{decode, put_head, put_hex};
use crate::line::{BadLine, check_line};
use sql_lexer::sanitize_string;
use tokens::refusal::Refusal;

pub mod filled;
pub mod hex;
pub mod line;

// What is lent for a line: room for its statement, for 4,096 tokens and for the shape.
#[derive(Drop)]
pub struct Work<'a> {
    pub text: &'a mut [u8; 8192],
    pub slots: &'a mut [u32; 12288],
    pub out: &'a mut [u8; 16384],
}

// A frame: the status byte, the stop offset or the detail, and how many bytes of the output are the shape.
// Stays: numbers for the status and the refusal are what a frame is, by document 01; what may not change: `framed`, `frame_of` (specs/Frames.antt).
#[derive(Clone, Copy)]
pub struct Frame {
    pub status: u8,
    pub number: usize,
    pub length: usize,
}

// 00 read whole, 01 stopped short.
fn read_status(stop: usize, length: usize) -> u8
    ensures { result ≡ read_status stop length }
{
    if stop == length { 0 } else { 1 }
}

// Hex 10 and the refusal's number; no shape.
fn refused_frame(number: u8, detail: usize) -> Frame
    requires { number < 240 }
    ensures { (text : List ℕ) → result ≡ in_numbers (framed text (refused number detail)) }
{
    Frame {
        status: 0x10 + number,
        number: detail,
        length: 0,
    }
}

// The frame of a refusal.
impl From<Refusal> for Frame {
    ghost use Rattle.std.specs.Prelude.{◌≡◌, List, ℕ};
    ghost use Rattle.tokens.specs.Answers.{refusal};
    ghost use Rattle.frames.specs.Frames.{framed, in_numbers};

    ghost from_gives = { λ why f. (text : List ℕ) → f ≡ in_numbers (framed text (refusal why)) };

    fn from(why: Refusal) -> Frame {
        let (number, detail) = why.numbers();
        refused_frame(number, detail)
    }
}

// The frame of a statement.
fn frame_text(text: &[u8], slots: &mut [u32; 12288], out: &mut [u8; 16384]) -> Frame
    ensures { FramesText text.now slots.old out.old result slots.new out.new }
{
    match sanitize_string(text, slots, out) {
        Ok(figures) => Frame {
            status: read_status(figures.stop.0, text.len()),
            number: figures.stop.0,
            length: figures.length,
        },
        Err(why) => Frame::from(why),
    }
}

// The frame of a line: the shape lies over the front of the output.
pub fn frame_line(line: &[u8], work: &mut Work) -> Frame
    ensures value { FramesLine line.now work.old.text.now work.old.slots.now work.old.out.now result work.new.text.now work.new.slots.now work.new.out.now }
    ensures same { SameBuffers work.old work.new }
{
    match check_line(line) {
        Ok(()) => {
            let count = decode(line, work.text);
            // What is written is lent first, then what is read.
            let slots = &mut *work.slots;
            let out = &mut *work.out;
            frame_text(&work.text[..count], slots, out)
        }
        Err(BadLine(detail)) => refused_frame(8, detail),
    }
}

// A frame as text and a LF, behind the first `at` bytes of the page: how many there are then.
fn put_frame(page: &mut [u8], at: usize, shown: Frame, out: &[u8]) -> usize
    requires { (shown.length ≤ length out.now) × (at + shown.length * 2 + 11 ≤ length page.old) }
    ensures { Put page.old at (printed (shown_over shown out.now)) result page.new }
{
    let start = put_head(page, at, shown.status, shown.number);
    let end = put_hex(page, start, &out[..shown.length]);
    page[end] = b'\n';
    end + 1
}

// The frame of a line, printed behind the first `at` bytes of the page: how many there are then.
// Stays: a place beside the page; what may not change: `Prints` and `print_unique` name every byte of it. Who needs less calls `print` (filled.rt).
pub fn print_frame(line: &[u8], work: &mut Work, page: &mut [u8; 65536], at: usize) -> usize
    requires { at + longest ≤ 65536 }
    ensures printed { Prints line.now page.old at result page.new }
    ensures left { Leaves line.now work.old.text.now work.old.slots.now work.old.out.now work.new.text.now work.new.slots.now work.new.out.now }
    ensures same { SameBuffers work.old work.new }
{
    let shown = frame_line(line, work);
    put_frame(page, at, shown, work.out)
}
