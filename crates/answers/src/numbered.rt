// The answer lines by a call's number, which may be any: a refusal's, 0 or another, with whatever stands beside it.
ghost use Rattle.std.specs.Prelude.{◌≡◌, ◌++◌};
ghost use Rattle.texts.specs.Texts.{bytes_text};
ghost use Rattle.words.specs.Buffers.{put};
ghost use Rattle.answers.specs.Answers.{number_text, end_text, plain_line, read_line, write_line, sample_line, drive_line};
ghost use Rattle.answers.specs.Answers.{receive_end, receive_line, frame_end, counted_text, frame_line};
ghost use Rattle.answers.specs.Remarks.{value_in};

use crate::accesses::{end_read, end_write, put_refused};
use crate::remarks::{Before, value_in};
use crate::tables::meaning;
use crate::{close, put_number, put_worded};
use texts::text::{put_bytes, put_decimal, put_numbers, put_places};
use words::buffers::Buffer;
use words::items::first_items;

// A call that answers its number alone.
#[tactic(auto, using(words::proofs::BufferLaws::puts), unfolding(crate::specs::Answers::plain_line))]
pub fn put_plain<B: Buffer<u8>>(out: &mut B, number: u32)
    ensures { B.held out.new ≡ put B.most (B.held out.old) (plain_line number) }
{
    put_number(out, number);
    end(out, number);
}

// A read, of its value's `size` lowest bytes where it is accepted.
#[tactic(auto, using(crate::proofs::AnswerLaws::reads), unfolding(crate::specs::Answers::read_line))]
pub fn put_read<B: Buffer<u8>>(
    out: &mut B,
    number: u32,
    value: u32,
    size: usize,
    index: u16,
    sub: u8,
)
    ensures { B.held out.new ≡ put B.most (B.held out.old) (read_line number value size index sub) }
{
    if number != 0 {
        return put_refused(out, number, index, sub);
    }
    out.put_all(b"0 =");
    put_bytes(out, first_items(&value.to_le_bytes(), size));
    end_read(out, index, sub, value);
}

#[tactic(auto, using(words::proofs::BufferLaws::puts), unfolding(crate::specs::Answers::write_line))]
pub fn put_write<B: Buffer<u8>>(
    out: &mut B,
    number: u32,
    index: u16,
    sub: u8,
    payload: &[u8],
    before: Before,
)
    ensures { B.held out.new ≡ put B.most (B.held out.old)
        (write_line number (value_in index sub payload.now) index sub before) }
{
    match number {
        0 => {
            out.put(b'0');
            end_write(out, index, sub, value_in(index, sub, payload), before);
        }
        _ => put_refused(out, number, index, sub),
    }
}

#[tactic(auto, using(words::proofs::BufferLaws::puts), unfolding(crate::specs::Answers::sample_line))]
pub fn put_sample<B: Buffer<u8>>(out: &mut B, number: u32, events: &[u8], channels: u16)
    ensures { B.held out.new ≡ put B.most (B.held out.old) (sample_line number events.now channels) }
{
    put_buffer(out, number, b" events", events);
    out.put_all(b" /");
    put_places(out, channels);
    end(out, number);
}

#[tactic(auto, using(words::proofs::BufferLaws::puts), unfolding(crate::specs::Answers::drive_line))]
pub fn put_drive<B: Buffer<u8>>(out: &mut B, number: u32, lines: &[u8], channels: &[i16])
    ensures { B.held out.new ≡ put B.most (B.held out.old) (drive_line number lines.now channels.now) }
{
    put_buffer(out, number, b" lines", lines);
    out.put_all(b" /");
    put_numbers(out, channels);
    end(out, number);
}

// A receive, in a node that is operational or not, by a frame that is as long as its mapping or not.
#[tactic(auto, unfolding(crate::specs::Answers::receive_line))]
pub fn put_receive<B: Buffer<u8>>(out: &mut B, number: u32, active: bool, long: bool)
    ensures { B.held out.new ≡ put B.most (B.held out.old) (receive_line number active long) }
{
    put_worded(out, number, receive_end(active, long));
}

#[tactic(auto, unfolding(crate::specs::Answers::receive_end))]
fn receive_end(active: bool, long: bool) -> &'static [u8]
    ensures { result.now ≡ receive_end active long }
{
    match (active, long) {
        (false, _) => b" (node not operational, nothing written)\n",
        (true, false) => b" (frame shorter than its mapping, nothing written)\n",
        (true, true) => b"\n",
    }
}

#[tactic(auto, using(words::proofs::BufferLaws::puts), unfolding(crate::specs::Answers::frame_line))]
pub fn put_frame<B: Buffer<u8>>(out: &mut B, number: u32, frame: &[u8], count: usize, active: bool)
    ensures { B.held out.new ≡ put B.most (B.held out.old) (frame_line number frame.now count active) }
{
    put_counted(out, number, b" frame", frame, count);
    out.put_all(frame_end(number, active));
}

// A transmit has one refusal, whose number means the event buffer elsewhere.
#[tactic(auto, unfolding(crate::specs::Answers::frame_end))]
fn frame_end(number: u32, active: bool) -> &'static [u8]
    ensures { result.now ≡ frame_end number active }
{
    match (number, active) {
        (0, true) => b"\n",
        (0, false) => b" (node not operational)\n",
        _ => b" (frame buffer not 8 bytes)\n",
    }
}

// A number, a word, and a buffer as the call left it.
fn put_buffer<B: Buffer<u8>>(out: &mut B, number: u32, word: &[u8], buffer: &[u8])
    ensures { B.held out.new ≡ put B.most (B.held out.old) (number_text number ++ word.now ++ bytes_text buffer.now) }
{
    put_worded(out, number, word);
    put_bytes(out, buffer);
}

// The same, and a count.
pub fn put_counted<B: Buffer<u8>>(
    out: &mut B,
    number: u32,
    word: &[u8],
    buffer: &[u8],
    count: usize,
)
    ensures { B.held out.new ≡ put B.most (B.held out.old) (counted_text number word.now buffer.now count) }
{
    put_buffer(out, number, word, buffer);
    out.put_all(b" / ");
    put_decimal(out, count as u64);
}

// A refusal's meaning and the line's end.
#[tactic(auto, using(crate::proofs::AnswerLaws::ends), unfolding(crate::specs::Answers::end_text))]
fn end<B: Buffer<u8>>(out: &mut B, number: u32)
    ensures { B.held out.new ≡ put B.most (B.held out.old) (end_text number) }
{
    match number {
        0 => out.put(b'\n'),
        _ => {
            out.put_all(b" (");
            out.put_all(meaning(number));
            close(out);
        }
    }
}
