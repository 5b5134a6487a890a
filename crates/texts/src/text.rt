// Numbers, bytes and words put as text behind what a buffer holds. What has no room is left out.
// None of it goes by Display: each promise names every byte, and what `fmt` writes no proof can use.
ghost use Rattle.std.specs.Prelude.{◌≡◌, List, [], ◌∷◌, ℕ, ◌^◌, ◌≤◌, ◌<◌};
ghost use Rattle.std.specs.Int.{w16};
ghost use Rattle.std.proofs.Common.{of_z};
ghost use Rattle.words.specs.Buffers.{put};
ghost use Rattle.texts.specs.Texts.{glyph_of, hex_text, long_hex_text, decimal_text, bits_text, bytes_text, numbers_text};
ghost use Rattle.words.specs.Words.{words_of};
ghost use Rattle.texts.specs.Texts.{each_text, words_text, place_text, places_text, complement_text, run_text, runs_text};

use words::buffers::Buffer;
use words::split::{after_word, first_word, is_blank};

// A digit below 16, in upper case.
fn glyph(digit: u8) -> u8
    requires { digit < 16 }
    ensures { result ≡ glyph_of digit }
{
    if digit < 10 {
        return b'0' + digit;
    }
    b'A' - 10 + digit
}

// Two hexadecimal digits.
#[tactic(auto, using(words::proofs::BufferLaws::put_then), unfolding(crate::specs::Texts::hex_text))]
pub fn put_hex<B: Buffer<u8>>(out: &mut B, byte: u8)
    ensures { B.held out.new ≡ put B.most (B.held out.old) (hex_text byte) }
{
    out.put(glyph(byte / 16 % 16));
    out.put(glyph(byte % 16));
}

// Eight hexadecimal digits.
#[tactic(auto, using(words::proofs::BufferLaws::put_none, crate::proofs::TextLaws::each_more, crate::proofs::TextLaws::long_hex_is))]
pub fn put_long_hex<B: Buffer<u8>>(out: &mut B, number: u32)
    ensures { B.held out.new ≡ put B.most (B.held out.old) (long_hex_text number) }
{
    for byte in number.to_be_bytes() {
        put_hex(out, byte);
    }
}

// A decimal number.
#[tactic(auto, using(crate::proofs::TextLaws::decimal_is))]
pub fn put_decimal<B: Buffer<u8>>(out: &mut B, number: u64)
    ensures { B.held out.new ≡ put B.most (B.held out.old) (decimal_text number) }
{
    let mut digits = [0u8; 20];
    let n = io::decimal(number, &mut digits);
    out.put_all(&digits[..n]);
}

// A decimal number, with a sign where it is below 0.
#[tactic(auto, using(words::proofs::BufferLaws::puts, crate::proofs::TextLaws::signed_is))]
pub fn put_signed<B: Buffer<u8>>(out: &mut B, number: i16)
    ensures { B.held out.new ≡ put B.most (B.held out.old) (bits_text (of_z w16 number)) }
{
    if number.is_negative() {
        out.put(b'-');
    }
    put_decimal(out, u64::from(number.unsigned_abs()));
}

// A number in two's complement, by the first that stands for one below 0.
#[tactic(auto, using(words::proofs::BufferLaws::puts))]
pub fn put_complement<B: Buffer<u8>>(out: &mut B, number: u32, half: u64)
    requires { half ≤ 2 ^ 32 }
    ensures { B.held out.new ≡ put B.most (B.held out.old) (complement_text half number) }
{
    let number = u64::from(number);
    if number < half {
        return put_decimal(out, number);
    }
    out.put(b'-');
    put_decimal(out, (half + half).saturating_sub(number));
}

// What has a text of its own.
trait Printed {
    ghost text: { Self → List ℕ };

    fn put_into<B: Buffer<u8>>(&self, out: &mut B)
        ensures { B.held out.new ≡ put B.most (B.held out.old) (text self.now) };
}

impl Printed for u8 {
    ghost text = { hex_text };

    fn put_into<B: Buffer<u8>>(&self, out: &mut B) {
        put_hex(out, *self);
    }
}

impl Printed for i16 {
    ghost text = { λ z. bits_text (of_z w16 z) };

    fn put_into<B: Buffer<u8>>(&self, out: &mut B) {
        put_signed(out, *self);
    }
}

// A space and the text for each.
#[tactic(auto, using(words::proofs::BufferLaws::puts, crate::proofs::TextLaws::each_more))]
fn put_each<T: Printed, B: Buffer<u8>>(out: &mut B, items: &[T])
    ensures { B.held out.new ≡ put B.most (B.held out.old) (each_text (λ x. 32 ∷ T.text x) items.now) }
{
    for item in items {
        out.put(b' ');
        item.put_into(out);
    }
}

// A space and two digits for each byte.
pub fn put_bytes<B: Buffer<u8>>(out: &mut B, bytes: &[u8])
    ensures { B.held out.new ≡ put B.most (B.held out.old) (bytes_text bytes.now) }
{
    put_each(out, bytes);
}

// A space and the number for each.
pub fn put_numbers<B: Buffer<u8>>(out: &mut B, numbers: &[i16])
    ensures { B.held out.new ≡ put B.most (B.held out.old) (numbers_text numbers.now) }
{
    put_each(out, numbers);
}

// A space and the word for each word of a text.
#[tactic(auto, using(crate::proofs::TextLaws::each_word))]
pub fn put_each_word<B: Buffer<u8>>(out: &mut B, text: &[u8])
    ensures { B.held out.new ≡ put B.most (B.held out.old) (words_text (words_of text.now)) }
{
    if is_blank(text) {
        return;
    }
    out.put(b' ');
    out.put_all(first_word(text));
    put_each_word(out, after_word(text));
}

// A space and n where the lowest bit is 1.
#[tactic(auto, using(words::proofs::BufferLaws::puts), unfolding(crate::specs::Texts::place_text))]
fn put_place<B: Buffer<u8>>(out: &mut B, n: u64, bits: u16)
    ensures { B.held out.new ≡ put B.most (B.held out.old) (place_text n bits) }
{
    if bits % 2 == 1 {
        out.put(b' ');
        put_decimal(out, n);
    }
}

// A space and n for each bit n - 1 that is 1.
#[tactic(auto, using(crate::proofs::TextLaws::placing_none, crate::proofs::TextLaws::placing_more))]
pub fn put_places<B: Buffer<u8>>(out: &mut B, bits: u16)
    ensures { B.held out.new ≡ put B.most (B.held out.old) (places_text bits) }
{
    let mut rest = bits;
    for n in 1..17 {
        put_place(out, n, rest);
        rest /= 2;
    }
}

// The lowest bit, at place n, in a text of runs.
#[tactic(auto, using(words::proofs::BufferLaws::puts), unfolding(crate::specs::Texts::run_text))]
fn put_run<B: Buffer<u8>>(out: &mut B, n: u64, some: bool, before: bool, bits: u32)
    ensures { B.held out.new ≡ put B.most (B.held out.old) (run_text n some before bits) }
{
    match (bits % 2 == 1, before, bits / 2 % 2 == 1) {
        (false, _, _) | (true, true, true) => return,
        (true, true, false) => out.put_all(b" to "),
        (true, false, _) if some => out.put_all(b", "),
        (true, false, _) => {}
    }
    put_decimal(out, n);
}

// The places of the bits that are 1 by runs, the lowest at place n.
#[tactic(auto, using(crate::proofs::TextLaws::running_none, crate::proofs::TextLaws::running_more))]
pub fn put_runs<B: Buffer<u8>>(out: &mut B, n: u32, bits: u32)
    ensures { B.held out.new ≡ put B.most (B.held out.old) (runs_text n bits) }
{
    let mut rest = bits;
    let mut some = false;
    let mut before = false;
    let first = u64::from(n);
    for place in first..first + 32 {
        put_run(out, place, some, before, rest);
        before = rest % 2 == 1;
        some |= before;
        rest /= 2;
    }
}
