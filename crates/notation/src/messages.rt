// A receive or a transmit, by the words after it.
ghost use Rattle.std.specs.Prelude.{◌≡◌, cond};
ghost use Rattle.words.specs.Words.{words_of};
ghost use Rattle.words.specs.Numbers.{number_of};
ghost use Rattle.notation.specs.Promises.{said};
ghost use Rattle.notation.specs.Meanings.{message_of, no_message, message_meaning, receive_meaning, transmit_meaning};

use crate::Call;
use crate::bytes::{filled, last_bytes};
use crate::parts::end;
use profile::Message;
use words::Expected;
use words::buffers::Buffer;
use words::held::Held;
use words::numbers::decimal;
use words::split::{after_word, first_word, is_blank};

#[tactic(auto, using(crate::proofs::Laws::sent))]
pub fn receive(rest: &[u8]) -> Result<Call, Expected>
    ensures { said result ≡ message_meaning receive_meaning (words_of rest.now) }
{
    let message = message(first_word(rest))?;
    Ok(Call::Receive(message, last_bytes(after_word(rest))?))
}

#[tactic(auto, using(crate::proofs::Laws::sent))]
pub fn transmit(rest: &[u8]) -> Result<Call, Expected>
    ensures { said result ≡ message_meaning transmit_meaning (words_of rest.now) }
{
    let message = message(first_word(rest))?;
    let frame = after_word(rest);
    if is_blank(frame) {
        return Ok(Call::Transmit(message, filled(&[0; 8])));
    }
    if first_word(frame) == b"/".as_slice() {
        end(after_word(frame))?;
        return Ok(Call::Transmit(message, Held::empty()));
    }
    Ok(Call::Transmit(message, last_bytes(frame)?))
}

// The message of a number from 1 to 4.
fn message(word: &[u8]) -> Result<Message, Expected>
    ensures { result ≡ cond (no_message (number_of 10 word.now)) (Err Expected.Message) (Ok (message_of (number_of 10 word.now))) }
{
    match decimal(word) {
        Some(1) => Ok(Message::First),
        Some(2) => Ok(Message::Second),
        Some(3) => Ok(Message::Third),
        Some(4) => Ok(Message::Fourth),
        _ => Err(Expected::Message),
    }
}
