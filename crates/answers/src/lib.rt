// Answer lines: the call's number, what it answers, and words that help a person.
#![tactic(auto, using(words::proofs::BufferLaws::puts))]

ghost use Rattle.std.specs.Prelude.{◌≡◌, ◌++◌};
ghost use Rattle.profile.specs.Answers.{sample_answer, buffer_answer};
ghost use Rattle.profile.specs.Numbers.{number_answered};
ghost use Rattle.words.specs.Ascii.{ascii};
ghost use Rattle.words.specs.Buffers.{put};
ghost use Rattle.texts.specs.Texts.{decimal_text};
ghost use Rattle.answers.specs.Answers.{newline, number_text, plain_line, command_line, sample_line, drive_line};
ghost use Rattle.answers.specs.Answers.{receive_line, counted_text, frame_line};
ghost use Rattle.answers.specs.Answers.{unknown_line, unmet_line, totals_text, judged_text};

use crate::tables::wanted;
use profile::refusals::Refusal;
use texts::text::{put_decimal, put_each_word, put_long_hex};
use words::Expected;
use words::buffers::Buffer;

// The answer lines of a read and of a write.
pub mod accesses;
// What an entry is, in words.
pub mod entries;
// The answer lines of a heartbeat and of an elapsed call.
pub mod heartbeats;
// The answer lines by a call's number.
pub mod numbered;
// What the refusal of a read or a write means.
pub mod refusals;
// What an accepted write did less than its writer may think.
pub mod remarks;
// The tables of words.
pub mod tables;

// The numbers of the papers are below 10, abort codes far above.
#[tactic(auto, unfolding(crate::specs::Answers::number_text))]
pub fn put_number<B: Buffer<u8>>(out: &mut B, number: u32)
    ensures { B.held out.new ≡ put B.most (B.held out.old) (number_text number) }
{
    if number < 10 {
        return put_decimal(out, u64::from(number));
    }
    put_long_hex(out, number);
}

// The number of a refusal, 0 where the call is accepted.
pub fn number_of<T: Drop>(answer: &Result<T, Refusal>) -> u32
    ensures { result ≡ number_answered answer.now }
{
    match answer {
        Ok(_) => 0,
        Err(refusal) => refusal.number(),
    }
}

// A call's number, and words behind it.
pub(crate) fn put_worded<B: Buffer<u8>>(out: &mut B, number: u32, words: &[u8])
    ensures { B.held out.new ≡ put B.most (B.held out.old) (number_text number ++ words.now) }
{
    put_number(out, number);
    out.put_all(words);
}

// A call that answers its number alone.
pub fn put_plain<B: Buffer<u8>>(out: &mut B, answer: Result<(), Refusal>)
    ensures { B.held out.new ≡ put B.most (B.held out.old) (plain_line (number_answered answer)) }
{
    numbered::put_plain(out, number_of(&answer));
}

// A command for this node or for another.
#[tactic(auto, using(profile::proofs::AnswerLaws::nonzero), unfolding(crate::specs::Answers::command_line))]
pub fn put_command<B: Buffer<u8>>(out: &mut B, answer: Result<(), Refusal>, addressed: bool)
    ensures { B.held out.new ≡ put B.most (B.held out.old) (command_line (number_answered answer) addressed) }
{
    match (answer, addressed) {
        (Ok(()), false) => out.put_all(b"0 (for another node, nothing done)\n"),
        _ => put_plain(out, answer),
    }
}

#[tactic(auto, using(crate::proofs::AnswerLaws::sample_is))]
pub fn put_sample<B: Buffer<u8>>(out: &mut B, answer: Result<u16, Refusal>, events: &[u8])
    ensures { B.held out.new ≡ put B.most (B.held out.old)
        (sample_line (sample_answer answer events.now).number events.now (sample_answer answer events.now).events) }
{
    numbered::put_sample(out, number_of(&answer), events, answer.unwrap_or(0));
}

pub fn put_drive<B: Buffer<u8>>(
    out: &mut B,
    answer: Result<(), Refusal>,
    lines: &[u8],
    channels: &[i16],
)
    ensures { B.held out.new ≡ put B.most (B.held out.old) (drive_line (number_answered answer) lines.now channels.now) }
{
    numbered::put_drive(out, number_of(&answer), lines, channels);
}

// A receive, in a node that is operational or not, by a frame that is as long as its mapping or not.
pub fn put_receive<B: Buffer<u8>>(
    out: &mut B,
    answer: Result<(), Refusal>,
    active: bool,
    long: bool,
)
    ensures { B.held out.new ≡ put B.most (B.held out.old) (receive_line (number_answered answer) active long) }
{
    numbered::put_receive(out, number_of(&answer), active, long);
}

#[tactic(auto, using(crate::proofs::AnswerLaws::counts))]
pub fn put_frame<B: Buffer<u8>>(
    out: &mut B,
    answer: Result<usize, Refusal>,
    frame: &[u8],
    active: bool,
)
    ensures { B.held out.new ≡ put B.most (B.held out.old)
        (frame_line (buffer_answer answer frame.now).number frame.now (buffer_answer answer frame.now).count active) }
{
    numbered::put_frame(out, number_of(&answer), frame, answer.unwrap_or(0), active);
}

// A number, a word, a buffer as the call left it, and a count, which is 0 where the call is refused.
#[tactic(auto, using(crate::proofs::AnswerLaws::counted_is))]
pub fn put_counted<B: Buffer<u8>>(
    out: &mut B,
    answer: Result<usize, Refusal>,
    word: &[u8],
    buffer: &[u8],
)
    ensures { B.held out.new ≡ put B.most (B.held out.old)
        (counted_text (buffer_answer answer buffer.now).number word.now buffer.now (buffer_answer answer buffer.now).count) }
{
    numbered::put_counted(out, number_of(&answer), word, buffer, answer.unwrap_or(0));
}

// Words in parentheses end a line.
pub fn close<B: Buffer<u8>>(out: &mut B)
    ensures { B.held out.new ≡ put B.most (B.held out.old) (ascii ")" ++ newline) }
{
    out.put(b')');
    out.put(b'\n');
}

// A line that is no call.
#[tactic(auto, using(words::proofs::BufferLaws::puts), unfolding(crate::specs::Answers::unknown_line))]
pub fn put_unknown<B: Buffer<u8>>(out: &mut B, line: u64, expected: Expected)
    ensures { B.held out.new ≡ put B.most (B.held out.old) (unknown_line line expected) }
{
    out.put_all(b"? line ");
    put_decimal(out, line);
    out.put_all(b": ");
    out.put_all(b"expected ");
    out.put_all(wanted(expected));
    out.put(b'\n');
}

// An expected answer that did not come.
#[tactic(auto, using(words::proofs::BufferLaws::puts), unfolding(crate::specs::Answers::unmet_line))]
pub fn put_unmet<B: Buffer<u8>>(out: &mut B, line: u64, text: &[u8])
    ensures { B.held out.new ≡ put B.most (B.held out.old) (unmet_line line text.now) }
{
    out.put_all(b"! line ");
    put_decimal(out, line);
    out.put_all(b": expected");
    put_each_word(out, text);
    out.put(b'\n');
}

// The totals: how many calls, how many of them refused, and how many lines that are no call.
#[tactic(auto, using(words::proofs::BufferLaws::puts), unfolding(crate::specs::Answers::totals_text))]
pub fn put_totals<B: Buffer<u8>>(out: &mut B, calls: u64, refused: u64, unknown: u64)
    ensures { B.held out.new ≡ put B.most (B.held out.old) (totals_text calls refused unknown) }
{
    put_calls(out, calls, refused);
    put_decimal(out, unknown);
    out.put_all(b" not understood");
    out.put(b'\n');
}

// An empty line, and how many calls there were.
fn put_calls<B: Buffer<u8>>(out: &mut B, calls: u64, refused: u64)
    ensures { B.held out.new ≡ put B.most (B.held out.old)
        (newline ++ decimal_text calls ++ ascii " calls, " ++ decimal_text refused ++ ascii " refused, ") }
{
    out.put(b'\n');
    put_decimal(out, calls);
    out.put_all(b" calls, ");
    put_decimal(out, refused);
    out.put_all(b" refused, ");
}

// How many expected answers came and how many did not, where any was expected.
#[tactic(auto, using(words::proofs::BufferLaws::puts), unfolding(crate::specs::Answers::judged_text))]
pub fn put_judged<B: Buffer<u8>>(out: &mut B, met: u64, unmet: u64)
    ensures { B.held out.new ≡ put B.most (B.held out.old) (judged_text met unmet) }
{
    if met == 0 && unmet == 0 {
        return;
    }
    put_decimal(out, met);
    out.put_all(b" as expected, ");
    put_decimal(out, unmet);
    out.put_all(b" not");
    out.put(b'\n');
}
