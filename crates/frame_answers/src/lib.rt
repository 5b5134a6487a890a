// The answer line of a request.
#![tactic(auto)]

ghost use Rattle.std.specs.Prelude.{◌≡◌};
ghost use Rattle.profile.specs.Answers.{buffer_answer};
ghost use Rattle.words.specs.Buffers.{put};
ghost use Rattle.frame_answers.specs.FrameAnswers.{index_asked, sub_asked, silent_end, abort_end, done_end, replied_end, reply_line};

use answers::accesses::{end_read, end_write};
use answers::refusals::put_access_refusal;
use answers::remarks::{Before, value_in};
use answers::{close, number_of};
use profile::refusals::Refusal;
use server_frames::requests::{aborts, asks_upload, code_in, index_in, sub_in};
use words::buffers::Buffer;

// The same line by the call's number.
pub mod numbered;

// Which entry a request names; 0:0, which is none, where it has not eight bytes.
pub fn entry_asked(frame: &[u8]) -> (u16, u8)
    ensures { (result.0 ≡ index_asked frame.now) × (result.1 ≡ sub_asked frame.now) }
{
    let Some(frame) = frame.as_array::<8>() else {
        return (0, 0);
    };
    (index_in(frame), sub_in(frame))
}

// A request, in a node that was stopped before it or not.
#[tactic(auto, using(answers::proofs::AnswerLaws::counts))]
pub fn put_reply<B: Buffer<u8>>(
    out: &mut B,
    answer: Result<usize, Refusal>,
    frame: &[u8],
    reply: &[u8],
    stopped: bool,
    before: Before,
)
    ensures { B.held out.new ≡ put B.most (B.held out.old)
        (reply_line (buffer_answer answer reply.now).number frame.now reply.now (buffer_answer answer reply.now).count stopped before) }
{
    numbered::put_reply(
        out,
        number_of(&answer),
        frame,
        reply,
        answer.unwrap_or(0),
        stopped,
        before,
    );
}

#[tactic(auto, unfolding(crate::specs::FrameAnswers::silent_end))]
pub(crate) fn silent_end(stopped: bool) -> &'static [u8]
    ensures { result.now ≡ silent_end stopped }
{
    if stopped {
        b" (node stopped, no reply)\n"
    } else {
        b" (client's abort, no reply)\n"
    }
}

// A reply is read back: what its abort means, or what was read or written.
#[tactic(auto, unfolding(crate::specs::FrameAnswers::replied_end))]
pub(crate) fn end_replied<B: Buffer<u8>>(out: &mut B, frame: &[u8], reply: &[u8], before: Before)
    ensures { B.held out.new ≡ put B.most (B.held out.old) (replied_end frame.now reply.now before) }
{
    let (Some(frame), Some(reply)) = (frame.as_array::<8>(), reply.as_array::<8>()) else {
        return out.put(b'\n');
    };
    if aborts(reply[0]) {
        return end_abort(out, code_in(reply), index_in(reply), sub_in(reply));
    }
    end_done(out, frame, reply, before);
}

// What an upload read stands in its reply, what a download wrote in its request.
#[tactic(auto, unfolding(crate::specs::FrameAnswers::done_end))]
fn end_done<B: Buffer<u8>>(out: &mut B, frame: &[u8; 8], reply: &[u8; 8], before: Before)
    ensures { B.held out.new ≡ put B.most (B.held out.old) (done_end frame.now reply.now before) }
{
    let (index, sub) = (index_in(reply), sub_in(reply));
    if asks_upload(frame[0]) {
        return end_read(out, index, sub, code_in(reply));
    }
    end_write(out, index, sub, value_in(index, sub, &frame[4..]), before);
}

#[tactic(auto, using(answers::proofs::AnswerLaws::parentheses), unfolding(crate::specs::FrameAnswers::abort_end))]
fn end_abort<B: Buffer<u8>>(out: &mut B, code: u32, index: u16, sub: u8)
    ensures { B.held out.new ≡ put B.most (B.held out.old) (abort_end code index sub) }
{
    out.put_all(b" (");
    out.put_all(b"abort: ");
    put_access_refusal(out, code, index, sub);
    close(out);
}
