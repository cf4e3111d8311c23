// The program of document 01: lines of hexadecimal on standard input, one frame a line on standard output.
// A line's frame is proved in crate frames; here lines are cut from the input, and frames collected until a page is written (page.rt).
#![tactic(auto)]

ghost use Rattle.std.specs.Prelude.{◌≡◌, ◌+◌, ◌≤◌, [], ◌++◌, length};
ghost use Rattle.frames.specs.Frames.{frame_of, printed, longest};
ghost use Rattle.shape.specs.Fits.{Still, page_room, has_ended, whole, Takes, Ends};
ghost use Rattle.shape.specs.Passes.{wrote, Flushes, MakesRoom, Passes, Took, Reads, Closes, Runs};

use crate::input::{Input, read_some};
use crate::page::{FULL, Page, write_out};
use frames::Work;
use frames::line::Line;
use std::io::{Print, Stderr, Stdin, Stdout};

mod input;
mod page;

// How the run stands: how many bytes the writes took, as a counter of 64 bits; whether one took fewer than it was to; and what the reads did.
// Stays: `lost` is a flag beside a number; no plainer otherwise: after a loss the count still stands, so no variant would hold another value.
#[derive(Clone, Copy)]
struct Stand {
    sent: usize,
    lost: bool,
    input: Input,
}

// What is held between two characters: the line so far, the frames that are not written yet, what is lent for a line, and how the run stands.
#[derive(Drop)]
struct Held<'a> {
    line: Line,
    page: Page,
    work: Work<'a>,
    stand: Stand,
}

impl Held<'_> {
    // What is held once the writes took so many bytes of the page.
    fn after_write(&mut self, took: usize)
        ensures { self.new ≡ wrote self.old took }
    {
        self.stand.lost = self.stand.lost || took < self.page.as_slice().len();
        self.stand.sent = self.stand.sent.wrapping_add(took);
        self.page.clear();
    }

    // Writes the page.
    fn flush(&mut self, stdout: Stdout)
        ensures { Flushes self.old self.new }
    {
        let took = write_out(stdout, self.page.as_slice(), self.stand.lost);
        self.after_write(took);
    }

    // Writes the page where the longest frame may not fit behind what it has.
    fn make_room(&mut self, stdout: Stdout)
        ensures { MakesRoom self.old self.new }
    {
        if FULL < self.page.as_slice().len() {
            self.flush(stdout);
        }
    }

    // Prints the frame of the line that is held.
    // Stays: the page's room is asked here, in `step` and in `end_input`: no plainer as a type: `make_room` gives it, and `make_room` and `step` change the same value.
    fn end_line(&mut self)
        requires { length self.old.page + longest ≤ page_room }
        ensures line { self.new.line ≡ [] }
        ensures page { self.new.page ≡ self.old.page ++ printed (frame_of self.old.line) }
        ensures still { Still self.old self.new }
    {
        self.page.print(self.line.as_slice(), &mut self.work);
        self.line.clear();
    }

    // Takes one character of the input.
    #[tactic(auto, using(std::proofs::lemmas::Grind::common_steps, crate::proofs::Taking::whole_ended, crate::proofs::Taking::due_kept))]
    fn step(&mut self, c: u8)
        requires { length self.old.page + longest ≤ page_room }
        ensures { Takes c self.old self.new }
    {
        if c == b'\n' {
            self.end_line();
        } else {
            self.line.keep(c);
        }
    }

    // Takes a chunk of the input.
    fn feed(&mut self, stdout: Stdout, chunk: &[u8])
        ensures { Passes chunk.now self.old self.new }
    {
        for &c in chunk {
            self.make_room(stdout);
            self.step(c);
        }
    }

    // Takes what a read gave: its answer, and the buffer that it read into.
    fn take_read(&mut self, stdout: Stdout, got: Option<usize>, buf: &[u8])
        ensures { Took got buf.now self.old self.new }
    {
        let n = got.unwrap_or(0).min(buf.len());
        self.feed(stdout, &buf[..n]);
        self.stand.input = Input::after(got);
    }

    // Reads a chunk and takes it.
    fn turn(&mut self, stdin: Stdin, stdout: Stdout)
        ensures { Reads self.old self.new }
    {
        let mut buf = [0; 65536];
        let got = read_some(stdin, &mut buf);
        self.take_read(stdout, got, &buf);
    }

    // No more is read. The end of the input ends a line that has begun; where a read failed, a line that is not finished is left out.
    #[tactic(auto, using(crate::proofs::Taking::ended_told, crate::proofs::Taking::whole_begun, crate::proofs::Taking::ends_none, crate::proofs::Taking::ends_cut))]
    fn end_input(&mut self)
        requires { length self.old.page + longest ≤ page_room }
        ensures { Ends self.old self.new }
    {
        if self.stand.input == Input::Ended && !self.line.as_slice().is_empty() {
            self.end_line();
        }
    }

    // What is left is printed, and the last page written.
    fn finish(&mut self, stdout: Stdout)
        ensures input { self.new.stand.input ≡ self.old.stand.input }
        ensures closes { Closes (whole (has_ended self.old.stand.input) self.old []) self.old.stand self.new.stand }
    {
        self.make_room(stdout);
        self.end_input();
        self.flush(stdout);
    }
}

// Reads to the end of the input, or until a read or a write fails: how the run ended.
fn run(stdin: Stdin, stdout: Stdout) -> Stand
    ensures { Runs result }
{
    let mut text = [0; 8192];
    let mut slots = [0; 12288];
    let mut out = [0; 16384];
    let mut held = Held {
        line: Line::new(),
        page: Page::new(),
        work: Work {
            text: &mut text,
            slots: &mut slots,
            out: &mut out,
        },
        stand: Stand {
            sent: 0,
            lost: false,
            input: Input::Open,
        },
    };
    // No input has as many chunks as this; the bound shows that the loop ends.
    for _ in 0..u64::MAX {
        held.turn(stdin, stdout);
        if held.stand.input != Input::Open || held.stand.lost {
            break;
        }
    }
    held.finish(stdout);
    held.stand
}

// Says on standard error what went wrong; the exit status is 0 all the same.
fn say(stderr: Stderr, end: Stand) {
    if end.lost {
        let _ = stderr.write_all(
            b"shape: the output could not be written; what was written is the beginning of it\n",
        );
        return;
    }
    if end.input != Input::Ended {
        let _ = stderr.write_all(
            b"shape: the input could not be read to its end; a line that was not finished is left out\n",
        );
    }
}

fn main(rt: HostRuntime) {
    let end = run(rt.stdin(), rt.stdout());
    say(rt.stderr(), end);
}
