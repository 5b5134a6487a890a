// request as a method.
ghost use Rattle.std.specs.Prelude.{◌≡◌};
ghost use Rattle.profile.specs.Answers.{buffer_answer};
ghost use Rattle.profile.specs.Nodes.{stopped};
ghost use Rattle.profile.specs.Machines.{node_alone};
ghost use Rattle.profile.specs.Calls.{Call};
ghost use Rattle.device.specs.View.{machines_of};
ghost use Rattle.device.specs.Promises.{Ensured};

use crate::{Answer, Device};
use nodes::is_stopped;

impl Device {
    // The answer is the reply's length: 8, or 0 where there is none.
    pub fn request(mut self, frame: &[u8], reply: &mut [u8]) -> Answer<usize>
        ensures { Ensured self (Call.request frame.now reply.old) (buffer_answer result.answer reply.new)
            result.device }
    {
        let answer = server::request(&mut self.store, frame, reply);
        Answer {
            answer,
            device: self,
        }
    }

    // The node is stopped.
    pub fn is_stopped(&self) -> bool
        ensures { result ≡ stopped (machines_of self.now node_alone 0).node }
    {
        is_stopped(self.store.node())
    }
}
