// No enum crosses to C, and two bools can name the four messages and nothing else.
ghost use Rattle.std.specs.Prelude.{◌≡◌};
ghost use Rattle.io401.specs.Which.{message_of};

use profile::Message;

pub fn message_of(second_pair: bool, second: bool) -> Message
    ensures { result ≡ message_of second_pair second }
{
    if second_pair {
        if second {
            return Message::Fourth;
        }
        return Message::Third;
    }
    if second {
        return Message::Second;
    }
    Message::First
}
