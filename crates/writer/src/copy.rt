// Copies into the lent output: what the Rust's growing `out` does by `push` and `push_str`.
ghost use Rattle.std.specs.Prelude.{◌≡◌, ◌+◌, ◌≤◌, ◌<◌, length};
ghost use Rattle.chars.specs.Utf8.{encode};
ghost use Rattle.writer.specs.Promise.{Put};

// The lent output, and how many bytes of it are written.
#[derive(Drop)]
pub struct Page<'a> {
    pub out: &'a mut [u8],
    pub at: usize,
}

// Lays bytes behind the first `at` of the output, one by one: of `copy_from_slice` the compiler makes a call of `memmove`, which whoever links the
// library would have to bring.
fn lay(out: &mut [u8], at: usize, bytes: &[u8])
    requires { at + length bytes.now ≤ length out.old }
    ensures put { Put out.old at bytes.now (at + length bytes.now) out.new }
    ensures long { length out.new ≡ length out.old }
{
    for (i, &byte) in bytes.iter().enumerate() {
        out[at + i] = byte;
    }
}

impl Page<'_> {
    ghost use Rattle.writer.specs.Survey.{Grown};

    // A text: one of one byte, as `=` has, is stored.
    #[tactic(auto, using(crate::proofs::Puts::put_one))]
    pub fn push(&mut self, bytes: &[u8])
        requires { self.old.at + length bytes.now ≤ length self.old.out.now }
        ensures { Grown self.old bytes.now self.new }
    {
        let end = self.at + bytes.len();
        match bytes {
            [byte] => self.out[self.at] = *byte,
            _ => lay(self.out, self.at, bytes),
        }
        self.at = end;
    }

    // A part of the statement, whose length nothing is known of.
    pub fn push_slice(&mut self, slice: &[u8])
        requires { self.old.at + length slice.now ≤ length self.old.out.now }
        ensures { Grown self.old slice.now self.new }
    {
        lay(self.out, self.at, slice);
        self.at += slice.len();
    }

    // One byte or none: None, the marks, and what stands before and after a slice. No loop is compiled for it.
    #[tactic(auto, using(crate::proofs::Puts::grown_one, crate::proofs::Puts::grown_none))]
    pub fn push_mark(&mut self, mark: &[u8])
        requires { (length mark.now ≤ 1) × (self.old.at + length mark.now ≤ length self.old.out.now) }
        ensures { Grown self.old mark.now self.new }
    {
        if let [byte] = mark {
            self.out[self.at] = *byte;
            self.at += 1;
        }
    }

    // A scalar value in UTF-8, as RFC 3629 writes it.
    // Stays: what may not change: the first clause takes any number below 0x110000, surrogates too, which no `char` is, so none of `char`'s methods.
    #[tactic(auto, using(chars::proofs::Whole::encode_1, chars::proofs::Whole::encode_2, chars::proofs::Whole::encode_3, chars::proofs::Whole::encode_4))]
    pub fn push_char(&mut self, c: u32)
        requires { (c < 0x110000) × (self.old.at + length (encode c) ≤ length self.old.out.now) }
        ensures { Grown self.old (encode c) self.new }
    {
        if c < 0x80 {
            return self.push(&[c as u8]);
        }
        let last = (0x80 + c % 64) as u8;
        if c < 0x800 {
            return self.push(&[(0xC0 + c / 64) as u8, last]);
        }
        let third = (0x80 + c / 64 % 64) as u8;
        if c < 0x10000 {
            return self.push(&[(0xE0 + c / 4096) as u8, third, last]);
        }
        self.push(&[
            (0xF0 + c / 262144) as u8,
            (0x80 + c / 4096 % 64) as u8,
            third,
            last,
        ])
    }
}
