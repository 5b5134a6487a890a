// What the calls answer to C: a number, 0 for accepted, with what else there is, 0 where it is refused.
ghost use Rattle.std.specs.Prelude.{◌≡◌};
ghost use Rattle.profile.specs.Numbers.{number_answered};
ghost use Rattle.io401.specs.Answers.{ReadAs, SampledAs, CountedAs};

use profile::ReadValue;
use profile::refusals::Refusal;

// What a read answers.
#[repr(C)]
#[derive(Clone, Copy)]
pub struct ReadNumber {
    pub number: u32,
    pub value: u32,
    // In bytes.
    pub size: usize,
}

// What a sample answers, beside the event buffer.
#[repr(C)]
#[derive(Clone, Copy)]
pub struct SampleNumber {
    pub number: u32,
    // Bit n - 1 for channel n.
    pub events: u16,
}

// What a transmit or a request answers, beside its buffer.
#[repr(C)]
#[derive(Clone, Copy)]
pub struct CountNumber {
    pub number: u32,
    // Of the bytes written.
    pub count: usize,
}

pub fn number_of(answer: Result<(), Refusal>) -> u32
    ensures { result ≡ number_answered answer }
{
    match answer {
        Ok(()) => 0,
        Err(refusal) => refusal.number(),
    }
}

impl From<Result<ReadValue, Refusal>> for ReadNumber {
    ghost from_gives = { ReadAs };

    fn from(answer: Result<ReadValue, Refusal>) -> ReadNumber {
        match answer {
            Ok(read) => ReadNumber {
                number: 0,
                value: read.value,
                size: read.size,
            },
            Err(refusal) => ReadNumber {
                number: refusal.number(),
                value: 0,
                size: 0,
            },
        }
    }
}

impl From<Result<u16, Refusal>> for SampleNumber {
    ghost from_gives = { SampledAs };

    fn from(answer: Result<u16, Refusal>) -> SampleNumber {
        match answer {
            Ok(events) => SampleNumber { number: 0, events },
            Err(refusal) => SampleNumber {
                number: refusal.number(),
                events: 0,
            },
        }
    }
}

impl From<Result<usize, Refusal>> for CountNumber {
    ghost from_gives = { CountedAs };

    fn from(answer: Result<usize, Refusal>) -> CountNumber {
        match answer {
            Ok(count) => CountNumber { number: 0, count },
            Err(refusal) => CountNumber {
                number: refusal.number(),
                count: 0,
            },
        }
    }
}
