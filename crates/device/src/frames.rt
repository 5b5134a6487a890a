// receive and transmit as methods.
ghost use Rattle.std.specs.Prelude.{◌≡◌, leb};
ghost use Rattle.profile.specs.Numbers.{number_answered};
ghost use Rattle.profile.specs.Answers.{plain_answer, buffer_answer};
ghost use Rattle.profile.specs.Nodes.{operational};
ghost use Rattle.profile.specs.MappedEntries as mapped;
ghost use Rattle.profile.specs.Machines.{node_alone};
ghost use Rattle.profile.specs.Heard.{in_force};
ghost use Rattle.profile.specs.Calls.{Call};
ghost use Rattle.device.specs.View.{machines_of};
ghost use Rattle.device.specs.Promises.{Ensured};

use crate::{Answer, Device};
use messages::conditions::{is_active, is_long};
use profile::Message;

impl Device {
    // Never refused.
    pub fn receive(mut self, message: Message, frame: &[u8]) -> Answer<()>
        ensures call { Ensured self (Call.receive message frame.now) (plain_answer result.answer) result.device }
        ensures accepted { number_answered result.answer ≡ 0 }
    {
        messages::received::receive(&mut self.store, message, frame);
        Answer {
            answer: Ok(()),
            device: self,
        }
    }

    // The answer is how many bytes were written.
    pub fn transmit(self, message: Message, frame: &mut [u8]) -> Answer<usize>
        ensures { Ensured self (Call.transmit message frame.old) (buffer_answer result.answer frame.new) result.device }
    {
        let answer = messages::transmitted::transmit(&self.store, message, frame);
        Answer {
            answer,
            device: self,
        }
    }

    // The node is operational.
    pub fn is_active(&self) -> bool
        ensures { result ≡ operational (machines_of self.now node_alone 0).node }
    {
        is_active(&self.store)
    }

    // A received frame of that many bytes is as long as its mapping.
    pub fn is_long(&self, message: Message, size: usize) -> bool
        ensures { result ≡ leb (mapped.total (mapped.received message) (in_force (machines_of self.now) (mapped.received message))) size }
    {
        is_long(&self.store, message, size)
    }
}
