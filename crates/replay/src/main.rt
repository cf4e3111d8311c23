// The program that replays the Rust's answers: one call a line on standard input, its answer on standard output. It makes the call and prints
// all of the answer; the file `stdout` has the Rust's (tools/replay, docs/COMPARISON.md), and `rt ci` compares the two.
//
// A line is the hexadecimal of these bytes; numbers have four bytes, the highest first.
//    0  the call: 1 lex, 2 sanitize, 3 write, 4 sanitize_string
//    1  words lent, up to 1,024
//    5  words given: so many of those lent are in the line, the rest are A5A5A5A5 before the call
//    9  the count, for sanitize and write
//   13  bytes of output lent, up to 1,024, each A5 before the call
//   17  the length of the text, up to 1,048,577, where it is more than the line's own text: the byte at 21 follows it so often
//   21  that byte
//   22  the words given; then the line's own text
// A line of more than 16,384 characters, or not of this form, prints `no call`.
// The calls are those of crate sql_lexer, in the numbers of include/hayrumble.h (crate sql_lexer_c), so that this face is replayed as well.
#![tactic(auto)]

ghost use Rattle.std.specs.Prelude.{◌≤◌, IfOk};

use crate::head::{Call, HEAD, NoCall, head_of};
use crate::lay::{lay_bytes, lay_text, lay_words};
use crate::print::{put_answer, put_no_call};
use frames::hex::decode;
use frames::line::{Line, check_line};
use sql_lexer_c::{HayAnswer, hay_lex, hay_sanitize, hay_sanitize_string, hay_write};
use std::io::{Print, Read, Stdin, Stdout};

mod head;
mod lay;
mod print;

// Makes the call.
fn call(which: Call, text: &[u8], slots: &mut [u32], count: usize, out: &mut [u8]) -> HayAnswer {
    match which {
        Call::Lex => hay_lex(text, slots),
        Call::Sanitize => hay_sanitize(slots, count),
        Call::Write => hay_write(text, slots, count, out),
        Call::SanitizeString => hay_sanitize_string(text, slots, out),
    }
}

// What is lent for a line: room for its bytes, for the longest text, for the most words and bytes lent to a call, and for the longest answer
// printed.
#[derive(Drop)]
struct Lent {
    bytes: [u8; 8192],
    text: [u8; 1048577],
    slots: [u32; 1024],
    out: [u8; 1024],
    page: [u8; 16384],
}

impl Lent {
    // Lays what a line gives into what is lent, makes the call that it asks for and prints its answer: how long that is.
    fn replay(&mut self, line: &[u8]) -> Result<usize, NoCall>
        ensures { IfOk result (λ n. n ≤ 16384) }
    {
        check_line(line)?;
        let n = decode(line, &mut self.bytes);
        let bytes = &self.bytes[..n];
        let head = head_of(bytes)?;
        let (slots, _) = self.slots.split_at_mut(head.words);
        let (out, _) = self.out.split_at_mut(head.room);
        let own = HEAD + head.given * 4;
        lay_words(slots, &bytes[HEAD..own]);
        lay_bytes(out);
        let long = lay_text(&mut self.text, &bytes[own..], head.size, bytes[21]);
        let answered = call(head.call, &self.text[..long], slots, head.count, out);
        Ok(put_answer(&mut self.page, answered, slots, out))
    }

    // Prints and writes the answer of a line.
    fn end_line(&mut self, stdout: Stdout, line: &[u8]) {
        let n = match self.replay(line) {
            Ok(n) => n,
            Err(NoCall) => put_no_call(&mut self.page),
        };
        let _ = stdout.write_all(&self.page[..n]);
    }
}

// Takes a chunk of the input.
fn feed(stdout: Stdout, chunk: &[u8], line: &mut Line, lent: &mut Lent) {
    for &c in chunk {
        if c == b'\n' {
            lent.end_line(stdout, line.as_slice());
            line.clear();
        } else {
            line.keep(c);
        }
    }
}

// Chunk by chunk, to the end of the input or until a read fails. Every line ends in LF, so nothing is left at the end of the input.
fn run(stdin: Stdin, stdout: Stdout, lent: &mut Lent) {
    let mut input = stdin;
    let mut line = Line::new();
    let mut buf = [0; 65536];
    // No input has as many chunks as this; the bound shows that the loop ends.
    for _ in 0..u64::MAX {
        match input.read(&mut buf) {
            Ok(n) if 0 < n => feed(stdout, &buf[..n], &mut line, lent),
            _ => return,
        }
    }
}

fn main(rt: HostRuntime) {
    let mut lent = Lent {
        bytes: [0; 8192],
        text: [0; 1048577],
        slots: [0; 1024],
        out: [0; 1024],
        page: [0; 16384],
    };
    run(rt.stdin(), rt.stdout(), &mut lent);
}
