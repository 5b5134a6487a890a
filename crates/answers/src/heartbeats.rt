// The answer lines of a heartbeat and of an elapsed call.
ghost use Rattle.std.specs.Prelude.{◌≡◌};
ghost use Rattle.profile.specs.Numbers.{number_answered};
ghost use Rattle.words.specs.Buffers.{put};
ghost use Rattle.answers.specs.Answers.{heartbeat_end, heartbeat_line, elapsed_end, elapsed_line};

use crate::{number_of, put_worded};
use profile::refusals::Refusal;
use words::buffers::Buffer;

// A heartbeat of a node that a used entry names or not.
#[tactic(auto, unfolding(crate::specs::Answers::heartbeat_line))]
pub fn put_heartbeat<B: Buffer<u8>>(out: &mut B, answer: Result<(), Refusal>, watched: bool)
    ensures { B.held out.new ≡ put B.most (B.held out.old) (heartbeat_line (number_answered answer) watched) }
{
    put_worded(out, number_of(&answer), heartbeat_end(watched));
}

#[tactic(auto, unfolding(crate::specs::Answers::heartbeat_end))]
fn heartbeat_end(watched: bool) -> &'static [u8]
    ensures { result.now ≡ heartbeat_end watched }
{
    if watched {
        b"\n"
    } else {
        b" (no entry watches this node)\n"
    }
}

// An elapsed call, by which an entry expires or not, on a watch that is started or not.
#[tactic(auto, unfolding(crate::specs::Answers::elapsed_line))]
pub fn put_elapsed<B: Buffer<u8>>(
    out: &mut B,
    answer: Result<(), Refusal>,
    due: bool,
    running: bool,
)
    ensures { B.held out.new ≡ put B.most (B.held out.old) (elapsed_line (number_answered answer) due running) }
{
    put_worded(out, number_of(&answer), elapsed_end(due, running));
}

#[tactic(auto, unfolding(crate::specs::Answers::elapsed_end))]
fn elapsed_end(due: bool, running: bool) -> &'static [u8]
    ensures { result.now ≡ elapsed_end due running }
{
    match (due, running) {
        (true, _) => b" (watch expired)\n",
        (false, false) => b" (no watch started)\n",
        (false, true) => b"\n",
    }
}
