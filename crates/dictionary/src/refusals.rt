// Document 01, "Where each refusal is checked", and document 02's rows: a test for each row, in the table's order.
ghost use Rattle.std.specs.Prelude.{◌≡◌, false};
ghost use Rattle.profile.specs.Numbers.{number_answered};
ghost use Rattle.profile.specs.Answers.{present};
ghost use Rattle.profile.specs.Refusals.{first, access_checks, value_checks, create_refusal};
ghost use Rattle.profile.specs.Refusals.{sample_refusal, drive_refusal, transmit_refusal, request_refusal};
ghost use Rattle.dictionary.specs.Commanded.{Commanded};

use profile::Entry;
use profile::commands::Command;
use profile::refusals::Refusal;

// The abort code of a request that is no upload and no expedited download; it stands in a reply alone.
pub const NO_REQUEST: u32 = 0x0504_0001;

// A write's rows before its value is read, by the length of its data; its node is not stopped.
pub fn check_access(entry: Entry, size: usize) -> Result<(), Refusal>
    ensures { number_answered result ≡ first (access_checks false (present entry) size) }
{
    if entry.fixed {
        return Err(Refusal::ReadOnly);
    }
    let expected = usize::from(entry.size);
    if expected < size {
        return Err(Refusal::TooLong);
    }
    if size < expected {
        return Err(Refusal::TooShort);
    }
    Ok(())
}

// A write's rows on its value.
#[tactic(auto, unfolding(profile::specs::Entries::not_allowed, profile::specs::Entries::above_range, profile::specs::Entries::below_range))]
pub fn check_value(entry: Entry, value: u32) -> Result<(), Refusal>
    ensures { number_answered result ≡ first (value_checks (present entry) value) }
{
    if (value < entry.lowest) | (entry.highest < value) {
        return Err(Refusal::NotAllowed);
    }
    let number = value.cast_signed();
    if entry.short & (32_767 < number) {
        return Err(Refusal::TooHigh);
    }
    if entry.short & (number < -32_768) {
        return Err(Refusal::TooLow);
    }
    Ok(())
}

#[tactic(auto, unfolding(profile::specs::Refusals::create_refusal))]
pub fn check_create(number: u8) -> Result<(), Refusal>
    ensures { number_answered result ≡ create_refusal number }
{
    match number {
        1..=127 => Ok(()),
        _ => Err(Refusal::NodeNumber),
    }
}

// The command of a code, for a node number.
#[tactic(auto, unfolding(profile::specs::Refusals::command_refusal))]
pub fn check_command(code: u8, to: u8) -> Result<Command, Refusal>
    ensures { Commanded code to result }
{
    if 127 < to {
        return Err(Refusal::NodeNumber);
    }
    Command::try_from(code)
}

// By the lengths of the three buffers.
#[tactic(auto, unfolding(profile::specs::Refusals::sample_refusal))]
pub fn check_sample(digital: usize, analogue: usize, events: usize) -> Result<(), Refusal>
    ensures { number_answered result ≡ sample_refusal digital analogue events }
{
    if digital != 16 {
        return Err(Refusal::DigitalLength);
    }
    if analogue != 16 {
        return Err(Refusal::AnalogueLength);
    }
    if events != 16 {
        return Err(Refusal::FilledLength);
    }
    Ok(())
}

// By the length of the frame buffer.
#[tactic(auto, unfolding(profile::specs::Refusals::transmit_refusal))]
pub fn check_transmit(frame: usize) -> Result<(), Refusal>
    ensures { number_answered result ≡ transmit_refusal frame }
{
    if frame != 8 {
        return Err(Refusal::FilledLength);
    }
    Ok(())
}

// By the lengths of the request and of the reply buffer.
#[tactic(auto, unfolding(profile::specs::Refusals::request_refusal))]
pub fn check_request(frame: usize, reply: usize) -> Result<(), Refusal>
    ensures { number_answered result ≡ request_refusal frame reply }
{
    if frame != 8 {
        return Err(Refusal::RequestLength);
    }
    if reply != 8 {
        return Err(Refusal::FilledLength);
    }
    Ok(())
}

// By the lengths of the two buffers.
#[tactic(auto, unfolding(profile::specs::Refusals::drive_refusal))]
pub fn check_drive(lines: usize, channels: usize) -> Result<(), Refusal>
    ensures { number_answered result ≡ drive_refusal lines channels }
{
    if (lines != 16) | (channels != 8) {
        return Err(Refusal::DriveLength);
    }
    Ok(())
}
