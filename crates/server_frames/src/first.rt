// The fields of the first byte of a request or a reply. Bit 4 is reserved: no field has it.
ghost use Rattle.std.specs.Prelude.{◌≡◌, ◌<◌};
ghost use Rattle.profile.specs.Server.{command_of, unused_of, is_expedited, tells_size, first_byte};

// Bits 5 to 7, the command specifier.
#[tactic(auto, unfolding(profile::specs::Server::command_of))]
pub fn command_of(first: u8) -> u8
    ensures { result ≡ command_of first }
{
    first / 32 % 8
}

// Bits 2 and 3: how many of the four data bytes hold no data.
#[tactic(auto, unfolding(profile::specs::Server::unused_of))]
pub fn unused_of(first: u8) -> u8
    ensures { result ≡ unused_of first }
{
    first / 4 % 4
}

// Bit 1.
#[tactic(auto, unfolding(profile::specs::Server::is_expedited, profile::specs::Bits::bit_at))]
pub fn is_expedited(first: u8) -> bool
    ensures { result ≡ is_expedited first }
{
    first / 2 % 2 == 1
}

// Bit 0.
#[tactic(auto, unfolding(profile::specs::Server::tells_size, profile::specs::Bits::bit_at))]
pub fn tells_size(first: u8) -> bool
    ensures { result ≡ tells_size first }
{
    first % 2 == 1
}

#[tactic(auto, unfolding(profile::specs::Server::first_byte, profile::specs::Bits::bit))]
pub fn first_byte(command: u8, unused: u8, expedited: bool, told: bool) -> u8
    requires { (command < 8) × (unused < 4) }
    ensures { result ≡ first_byte command unused expedited told }
{
    32 * command + 4 * unused + 2 * u8::from(expedited) + u8::from(told)
}
