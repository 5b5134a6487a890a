// The answer line of a request by its number, which may be any, with whatever count stands beside it.
ghost use Rattle.std.specs.Prelude.{◌≡◌};
ghost use Rattle.words.specs.Buffers.{put};
ghost use Rattle.frame_answers.specs.FrameAnswers.{refused_end, reply_end, reply_line};

use crate::{end_replied, silent_end};
use answers::numbered::put_counted;
use answers::remarks::Before;
use profile::refusals::Refusal;
use words::buffers::Buffer;

// A request, in a node that was stopped before it or not.
#[tactic(auto, using(words::proofs::BufferLaws::puts), unfolding(crate::specs::FrameAnswers::reply_line))]
pub fn put_reply<B: Buffer<u8>>(
    out: &mut B,
    number: u32,
    frame: &[u8],
    reply: &[u8],
    count: usize,
    stopped: bool,
    before: Before,
)
    ensures { B.held out.new ≡ put B.most (B.held out.old) (reply_line number frame.now reply.now count stopped before) }
{
    put_counted(out, number, b" reply", reply, count);
    end_reply(out, number, frame, reply, count, stopped, before);
}

#[tactic(auto, unfolding(crate::specs::FrameAnswers::reply_end))]
fn end_reply<B: Buffer<u8>>(
    out: &mut B,
    number: u32,
    frame: &[u8],
    reply: &[u8],
    count: usize,
    stopped: bool,
    before: Before,
)
    ensures { B.held out.new ≡ put B.most (B.held out.old) (reply_end number frame.now reply.now count stopped before) }
{
    match (number, count) {
        (0, 0) => out.put_all(silent_end(stopped)),
        (0, _) => end_replied(out, frame, reply, before),
        _ => out.put_all(refused_end(number)),
    }
}

// The numbers of a request's two refusals mean other things elsewhere.
#[tactic(auto, unfolding(crate::specs::FrameAnswers::refused_end))]
fn refused_end(number: u32) -> &'static [u8]
    ensures { result.now ≡ refused_end number }
{
    if number == Refusal::RequestLength.number() {
        b" (request not 8 bytes)\n"
    } else {
        b" (reply buffer not 8 bytes)\n"
    }
}
