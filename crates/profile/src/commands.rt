// Network commands.
ghost use Rattle.profile.specs.Commands.{Named};

use crate::refusals::Refusal;

// By the papers' codes.
#[derive(Clone, Copy, Debug, PartialEq, Eq)]
pub enum Command {
    Start = 1,
    Stop = 2,
    EnterPreOperational = 128,
    ResetNode = 129,
    ResetCommunication = 130,
}

impl TryFrom<u8> for Command {
    type Error = Refusal;

    ghost try_from_gives = { Named };

    fn try_from(code: u8) -> Result<Command, Refusal> {
        match code {
            1 => Ok(Command::Start),
            2 => Ok(Command::Stop),
            128 => Ok(Command::EnterPreOperational),
            129 => Ok(Command::ResetNode),
            130 => Ok(Command::ResetCommunication),
            _ => Err(Refusal::CommandCode),
        }
    }
}
