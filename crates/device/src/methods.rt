// The eight calls of document 01 as methods: the device comes by value and goes back with the answer.
ghost use Rattle.std.specs.Prelude.{◌≡◌};
ghost use Rattle.profile.specs.Numbers.{number_answered};
ghost use Rattle.profile.specs.Answers.{plain_answer, read_answer, sample_answer, drive_answer};
ghost use Rattle.profile.specs.Calls.{Plain, direct};
ghost use Rattle.device.specs.Promises.{CreatedAs, Ensured};

use crate::{Answer, Device};
use channels::fields::{DELTAS, FLAGS, LIMITS, OCTETS, VALUES};
use profile::{Cause, ReadValue};
use store::Store;
use windows::WORDS;

impl Device {
    // A refused node number gives a device with node number 127.
    pub fn create(number: u8) -> Answer<()>
        ensures { CreatedAs number result.answer result.device }
    {
        let mut store = Store {
            octets: [0; OCTETS],
            flags: [false; FLAGS],
            words: [0; WORDS],
            limits: [0; LIMITS],
            deltas: [0; DELTAS],
            values: [0; VALUES],
        };
        let answer = network::create(&mut store, number);
        let device = Device { store };
        Answer { answer, device }
    }

    pub fn read(mut self, index: u16, sub: u8) -> Answer<ReadValue>
        ensures { Ensured self (direct (Plain.read index sub)) (read_answer result.answer) result.device }
    {
        let answer = objects::read(&mut self.store, index, sub);
        Answer {
            answer,
            device: self,
        }
    }

    pub fn write(mut self, index: u16, sub: u8, bytes: &[u8]) -> Answer<()>
        ensures { Ensured self (direct (Plain.write index sub bytes.now)) (plain_answer result.answer) result.device }
    {
        let answer = objects::write(&mut self.store, index, sub, bytes);
        Answer {
            answer,
            device: self,
        }
    }

    pub fn sample(mut self, digital: &[u8], analogue: &[i16], events: &mut [u8]) -> Answer<u16>
        ensures { Ensured self (direct (Plain.sample digital.now analogue.now events.old))
            (sample_answer result.answer events.new) result.device }
    {
        let answer = process::sample(&mut self.store, digital, analogue, events);
        Answer {
            answer,
            device: self,
        }
    }

    pub fn command(mut self, code: u8, node: u8) -> Answer<()>
        ensures { Ensured self (direct (Plain.command code node)) (plain_answer result.answer) result.device }
    {
        let answer = network::command(&mut self.store, code, node);
        Answer {
            answer,
            device: self,
        }
    }

    // Never refused.
    pub fn raise(mut self, cause: Cause) -> Answer<()>
        ensures call { Ensured self (direct (Plain.raise cause)) (plain_answer result.answer) result.device }
        ensures accepted { number_answered result.answer ≡ 0 }
    {
        network::raise(&mut self.store, cause);
        Answer {
            answer: Ok(()),
            device: self,
        }
    }

    // Never refused.
    pub fn clear(mut self, cause: Cause) -> Answer<()>
        ensures call { Ensured self (direct (Plain.clear cause)) (plain_answer result.answer) result.device }
        ensures accepted { number_answered result.answer ≡ 0 }
    {
        network::clear(&mut self.store, cause);
        Answer {
            answer: Ok(()),
            device: self,
        }
    }

    pub fn drive(self, lines: &mut [u8], channels: &mut [i16]) -> Answer<()>
        ensures { Ensured self (direct (Plain.drive lines.old channels.old))
            (drive_answer result.answer lines.new channels.new) result.device }
    {
        let answer = process::drive(&self.store, lines, channels);
        Answer {
            answer,
            device: self,
        }
    }
}
