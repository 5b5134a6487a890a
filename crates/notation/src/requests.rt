// A request, by the words after it.
ghost use Rattle.std.specs.Prelude.{◌≡◌};
ghost use Rattle.words.specs.Words.{words_of};
ghost use Rattle.words.specs.Items.{byte_item, items_of};
ghost use Rattle.notation.specs.Promises.{said};
ghost use Rattle.notation.specs.Meanings.{request_meaning};

use crate::Call;
use crate::bytes::{filled, last_bytes};
use words::Expected;
use words::items::read_items;
use words::split::{after_word, is_blank};

#[tactic(auto, using(crate::proofs::Laws::next))]
pub fn request(rest: &[u8]) -> Result<Call, Expected>
    ensures { said result ≡ request_meaning (items_of byte_item 64 (words_of rest.now)) }
{
    let frame = read_items(rest)?;
    if is_blank(frame.rest) {
        return Ok(Call::Request(frame.items, filled(&[0; 8])));
    }
    let lent = last_bytes(after_word(frame.rest))?;
    Ok(Call::Request(frame.items, lent))
}
