// A heartbeat or an elapsed call, by the words after it.
ghost use Rattle.std.specs.Prelude.{◌≡◌};
ghost use Rattle.words.specs.Words.{words_of};
ghost use Rattle.notation.specs.Promises.{said};
ghost use Rattle.notation.specs.Meanings.{heartbeat_meaning, elapsed_meaning};

use crate::Call;
use crate::parts::{end, milliseconds, small};
use words::Expected;
use words::split::{after_word, first_word};

#[tactic(auto, using(crate::proofs::Laws::next), unfolding(crate::specs::Meanings::heartbeat_meaning))]
pub fn heartbeat(rest: &[u8]) -> Result<Call, Expected>
    ensures { said result ≡ heartbeat_meaning (words_of rest.now) }
{
    let node = small(first_word(rest))?;
    end(after_word(rest))?;
    Ok(Call::Heartbeat(node))
}

#[tactic(auto, using(crate::proofs::Laws::next), unfolding(crate::specs::Meanings::elapsed_meaning))]
pub fn elapsed(rest: &[u8]) -> Result<Call, Expected>
    ensures { said result ≡ elapsed_meaning (words_of rest.now) }
{
    let milliseconds = milliseconds(first_word(rest))?;
    end(after_word(rest))?;
    Ok(Call::Elapsed(milliseconds))
}
