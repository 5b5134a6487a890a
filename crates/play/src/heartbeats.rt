// Playing a heartbeat and an elapsed call on the session's device, with their answer lines.
ghost use Rattle.profile.specs.Calls as Doc;
ghost use Rattle.notation.specs.Meanings.Meaning.{call};
ghost use Rattle.play.specs.Sessions.{Played};

use crate::session::Session;
use answers::heartbeats::{put_elapsed, put_heartbeat};

impl Session {
    #[tactic(auto, using(crate::proofs::PlayLaws::calls, answers::proofs::HeartbeatLengths::heartbeat_short))]
    pub(crate) fn heartbeat(&mut self, node: u8)
        ensures { Played self.old (call (Doc.direct (Doc.Plain.heartbeat node))) self.new }
    {
        let watched = self.device.is_watched(node);
        let got = self.device.heartbeat(node);
        put_heartbeat(&mut self.out, got.answer, watched);
        self.count(got);
    }

    #[tactic(auto, using(crate::proofs::PlayLaws::calls, answers::proofs::HeartbeatLengths::elapsed_short))]
    pub(crate) fn elapsed(&mut self, milliseconds: u32)
        ensures { Played self.old (call (Doc.elapsed milliseconds)) self.new }
    {
        let due = self.device.is_due(milliseconds);
        let running = self.device.any_started();
        let got = self.device.elapsed(milliseconds);
        put_elapsed(&mut self.out, got.answer, due, running);
        self.count(got);
    }
}
