// heartbeat and elapsed as methods, and what the player's remarks ask of the watch.
ghost use Rattle.std.specs.Prelude.{◌≡◌};
ghost use Rattle.profile.specs.Numbers.{number_answered};
ghost use Rattle.profile.specs.Answers.{plain_answer};
ghost use Rattle.profile.specs.Watch as machine;
ghost use Rattle.profile.specs.Machines.{watch};
ghost use Rattle.profile.specs.Calls.{Plain, Call, direct};
ghost use Rattle.device.specs.View.{machines_of};
ghost use Rattle.device.specs.Promises.{Ensured};

use crate::{Answer, Device};
use watches::conditions;

impl Device {
    // Never refused.
    pub fn heartbeat(mut self, node: u8) -> Answer<()>
        ensures call { Ensured self (direct (Plain.heartbeat node)) (plain_answer result.answer) result.device }
        ensures accepted { number_answered result.answer ≡ 0 }
    {
        network::heartbeat(&mut self.store, node);
        Answer {
            answer: Ok(()),
            device: self,
        }
    }

    // Never refused.
    pub fn elapsed(mut self, milliseconds: u32) -> Answer<()>
        ensures call { Ensured self (Call.elapsed milliseconds) (plain_answer result.answer) result.device }
        ensures accepted { number_answered result.answer ≡ 0 }
    {
        network::elapsed(&mut self.store, milliseconds);
        Answer {
            answer: Ok(()),
            device: self,
        }
    }

    // A used entry of the watch names the node.
    pub fn is_watched(&self, node: u8) -> bool
        ensures { result ≡ machine.is_watched node (machines_of self.now watch 0).own }
    {
        conditions::is_watched(&self.store.deltas, node)
    }

    // A watch is started.
    pub fn any_started(&self) -> bool
        ensures { result ≡ machine.any_started (machines_of self.now watch 0).own }
    {
        conditions::any_started(&self.store.deltas)
    }

    // An entry of the watch expires by so many milliseconds more.
    pub fn is_due(&self, milliseconds: u32) -> bool
        ensures { result ≡ machine.is_due milliseconds (machines_of self.now watch 0).own }
    {
        conditions::is_due(&self.store.deltas, milliseconds)
    }
}
