// What a line gives, laid into the buffers that are lent to the call.
ghost use Rattle.std.specs.Prelude.{◌≡◌, ◌+◌, ◌≤◌, length};

// What each word and byte of a lent buffer is before the call, where the line gives no other.
const WORD: u32 = 0xA5A5A5A5;

const BYTE: u8 = 0xA5;

// The four bytes from `at` on as a number, the highest first.
pub fn number(bytes: &[u8], at: usize) -> u32
    requires { at + 4 ≤ length bytes.now }
{
    u32::from_be_bytes([bytes[at], bytes[at + 1], bytes[at + 2], bytes[at + 3]])
}

// The words that the line gives, four bytes each, over the front of the slots, and the filler over the rest.
pub fn lay_words(slots: &mut [u32], given: &[u8]) {
    let (words, _) = given.as_chunks::<4>();
    slots.fill(WORD);
    for (slot, &word) in slots.iter_mut().zip(words) {
        *slot = u32::from_be_bytes(word);
    }
}

// The filler over the whole output.
pub fn lay_bytes(out: &mut [u8]) {
    out.fill(BYTE);
}

// The line's own text, and behind it a byte repeated up to the size asked: how long the text is then.
pub fn lay_text(text: &mut [u8], own: &[u8], size: usize, byte: u8) -> usize
    requires { (length own.now ≤ length text.old) × (size ≤ length text.old) }
    ensures { result ≤ length text.new }
{
    let n = own.len();
    text[..n].copy_from_slice(own);
    if n < size {
        text[n..size].fill(byte);
    }
    n.max(size)
}
