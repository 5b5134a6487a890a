// The answer lines of a read and of a write.
ghost use Rattle.std.specs.Prelude.{◌≡◌};
ghost use Rattle.profile.specs.Answers.{read_answer};
ghost use Rattle.profile.specs.Numbers.{number_answered};
ghost use Rattle.words.specs.Buffers.{put};
ghost use Rattle.answers.specs.Answers.{in_parentheses, refused_line, write_line, read_line};
ghost use Rattle.answers.specs.EntryWords.{entry_text};
ghost use Rattle.answers.specs.Remarks.{written_text, value_in};

use crate::entries::put_entry;
use crate::refusals::put_access_refusal;
use crate::remarks::{Before, put_written};
use crate::{close, number_of, numbered, put_number};
use profile::ReadValue;
use profile::refusals::Refusal;
use words::buffers::Buffer;

// An accepted read, by its value's `size` lowest bytes; a refused one answers its number alone.
pub fn put_read<B: Buffer<u8>>(out: &mut B, answer: Result<ReadValue, Refusal>, index: u16, sub: u8)
    ensures { B.held out.new ≡ put B.most (B.held out.old)
        (read_line (read_answer answer).number (read_answer answer).value (read_answer answer).size index sub) }
{
    match answer {
        Ok(read) => numbered::put_read(out, 0, read.value, read.size, index, sub),
        Err(refusal) => numbered::put_read(out, refusal.number(), 0, 0, index, sub),
    }
}

// The words of an entry that was read, and the line's end.
#[tactic(auto, using(crate::proofs::AnswerLaws::parentheses))]
pub fn end_read<B: Buffer<u8>>(out: &mut B, index: u16, sub: u8, value: u32)
    ensures { B.held out.new ≡ put B.most (B.held out.old) (in_parentheses (entry_text index sub value)) }
{
    out.put_all(b" (");
    put_entry(out, index, sub, value);
    close(out);
}

// The same of one that was written.
#[tactic(auto, using(crate::proofs::AnswerLaws::parentheses))]
pub fn end_write<B: Buffer<u8>>(out: &mut B, index: u16, sub: u8, value: u32, before: Before)
    ensures { B.held out.new ≡ put B.most (B.held out.old) (in_parentheses (written_text index sub value before)) }
{
    out.put_all(b" (");
    put_written(out, index, sub, value, before);
    close(out);
}

// A read or a write that is refused.
#[tactic(auto, using(crate::proofs::AnswerLaws::parentheses), unfolding(crate::specs::Answers::refused_line))]
pub(crate) fn put_refused<B: Buffer<u8>>(out: &mut B, number: u32, index: u16, sub: u8)
    ensures { B.held out.new ≡ put B.most (B.held out.old) (refused_line number index sub) }
{
    put_number(out, number);
    out.put_all(b" (");
    put_access_refusal(out, number, index, sub);
    close(out);
}

pub fn put_write<B: Buffer<u8>>(
    out: &mut B,
    answer: Result<(), Refusal>,
    index: u16,
    sub: u8,
    payload: &[u8],
    before: Before,
)
    ensures { B.held out.new ≡ put B.most (B.held out.old)
        (write_line (number_answered answer) (value_in index sub payload.now) index sub before) }
{
    numbered::put_write(out, number_of(&answer), index, sub, payload, before);
}
