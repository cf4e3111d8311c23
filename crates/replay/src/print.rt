// An answer as a line: its six numbers, then every word of the slots lent, then every byte of the output lent, in hexadecimal.
// Stays: a place beside the page: what may not change: `put_hex` (crate frames), by which `put_bytes` prints, takes both.
ghost use Rattle.std.specs.Prelude.{◌≡◌, ◌+◌, ◌*◌, ◌≤◌, length};

use frames::hex::put_hex;
use sql_lexer_c::HayAnswer;

// The bytes as text behind the first `at` bytes of the page: how many there are then.
#[tactic(auto, using(frames::proofs::Printing::text_long))]
fn put_bytes(page: &mut [u8], at: usize, bytes: &[u8]) -> usize
    requires { at + length bytes.now * 2 ≤ length page.old }
    ensures { result ≡ at + length bytes.now * 2 }
{
    put_hex(page, at, bytes)
}

// A number of four bytes as text, the highest byte first. A greater one, which no answer has, is printed as the greatest.
fn put_number(page: &mut [u8], at: usize, number: u64) -> usize
    requires { at + 8 ≤ length page.old }
    ensures { result ≡ at + 8 }
{
    let bytes = u32::try_from(number).unwrap_or(u32::MAX).to_be_bytes();
    put_bytes(page, at, &bytes)
}

// One byte as it is.
fn put_byte(page: &mut [u8], at: usize, byte: u8) -> usize
    requires { at + 1 ≤ length page.old }
    ensures { result ≡ at + 1 }
{
    page[at] = byte;
    at + 1
}

// The words of the slots.
fn put_words(page: &mut [u8], at: usize, words: &[u32]) -> usize
    requires { at + length words.now * 8 ≤ length page.old }
    ensures { result ≡ at + length words.now * 8 }
{
    let mut end = at;
    for &word in words {
        end = put_number(page, end, u64::from(word));
    }
    end
}

// The six numbers of an answer: 48 bytes.
fn put_numbers(page: &mut [u8], answer: HayAnswer) -> usize
    requires { 48 ≤ length page.old }
    ensures { result ≡ 48 }
{
    let mut end = 0;
    for number in [
        answer.refusal,
        answer.detail,
        answer.tokens,
        answer.stop,
        answer.exposed,
        answer.length,
    ] {
        end = put_number(page, end, number);
    }
    end
}

// The whole line, LF included, from the page's start: how long it is.
pub fn put_answer(page: &mut [u8], answer: HayAnswer, slots: &[u32], out: &[u8]) -> usize
    requires { 51 + length slots.now * 8 + length out.now * 2 ≤ length page.old }
    ensures { result ≤ length page.new }
{
    let numbers = put_numbers(page, answer);
    let first = put_byte(page, numbers, b' ');
    let words = put_words(page, first, slots);
    let second = put_byte(page, words, b' ');
    let bytes = put_bytes(page, second, out);
    put_byte(page, bytes, b'\n')
}

// The line of an input line that is no call.
pub fn put_no_call(page: &mut [u8]) -> usize
    requires { 8 ≤ length page.old }
    ensures { result ≤ length page.new }
{
    let word = b"no call\n";
    page[..word.len()].copy_from_slice(word);
    word.len()
}
