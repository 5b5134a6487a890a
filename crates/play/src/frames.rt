// Playing a receive, a transmit and a request on the session's device, with their answer lines.
ghost use Rattle.profile.specs.Calls as Doc;
ghost use Rattle.notation.specs.Meanings.Meaning.{call};
ghost use Rattle.play.specs.Sessions.{Played};

use crate::session::Session;
use answers::{put_frame, put_receive};
use arrayvec::ArrayVec;
use frame_answers::{entry_asked, put_reply};
use profile::Message;

impl Session {
    #[tactic(auto, using(crate::proofs::PlayLaws::calls, answers::proofs::LengthLaws::receive_short))]
    pub(crate) fn receive(&mut self, message: Message, frame: &[u8])
        ensures { Played self.old (call (Doc.receive message frame.now)) self.new }
    {
        let active = self.device.is_active();
        let long = self.device.is_long(message, frame.len());
        let got = self.device.receive(message, frame);
        put_receive(&mut self.out, got.answer, active, long);
        self.count(got);
    }

    #[tactic(auto, using(crate::proofs::PlayLaws::calls, answers::proofs::LengthLaws::frame_short))]
    pub(crate) fn transmit(&mut self, message: Message, mut frame: ArrayVec<u8, 64>)
        ensures { Played self.old (call (Doc.transmit message frame.items)) self.new }
    {
        let active = self.device.is_active();
        let got = self.device.transmit(message, &mut frame);
        put_frame(&mut self.out, got.answer, &frame, active);
        self.count(got);
    }

    #[tactic(auto, using(crate::proofs::PlayLaws::calls, frame_answers::proofs::FrameLengths::reply_short))]
    pub(crate) fn request(&mut self, frame: &[u8], mut reply: ArrayVec<u8, 64>)
        ensures { Played self.old (call (Doc.request frame.now reply.items)) self.new }
    {
        let stopped = self.device.is_stopped();
        let (index, sub) = entry_asked(frame);
        let before = self.before_write(index, sub);
        let got = self.device.request(frame, &mut reply);
        put_reply(&mut self.out, got.answer, frame, &reply, stopped, before);
        self.count(got);
    }
}
