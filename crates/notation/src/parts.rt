// A number, a slash or the end, as the next thing in a line.
ghost use Rattle.std.specs.Prelude.{◌≡◌, true, false, cond, MatchResult};
ghost use Rattle.words.specs.Words.{after_word, is_blank};
ghost use Rattle.words.specs.Numbers.{number_of};
ghost use Rattle.notation.specs.Promises.{up_to};

use words::Expected;
use words::numbers::decimal;
use words::split::{after_word, is_blank};

// A number from 0 to 255.
pub fn small(word: &[u8]) -> Result<u8, Expected>
    ensures { result ≡ up_to 255 Expected.Small (number_of 10 word.now) }
{
    decimal(word)
        .and_then(|n| u8::try_from(n).ok())
        .ok_or(Expected::Small)
}

// A number from 0 to 4294967295.
pub fn milliseconds(word: &[u8]) -> Result<u32, Expected>
    ensures { result ≡ up_to 4294967295 Expected.Milliseconds (number_of 10 word.now) }
{
    decimal(word).ok_or(Expected::Milliseconds)
}

// What follows the `/` at which a list ended.
pub fn past_slash(rest: &[u8]) -> Result<&[u8], Expected>
    ensures { MatchResult result (λ more. (is_blank rest.now ≡ false) × (more.now ≡ after_word rest.now))
        (λ e. (is_blank rest.now ≡ true) × (e ≡ Expected.Slash)) }
{
    if is_blank(rest) {
        return Err(Expected::Slash);
    }
    Ok(after_word(rest))
}

// Nothing follows.
pub fn end(rest: &[u8]) -> Result<(), Expected>
    ensures { result ≡ cond (is_blank rest.now) (Ok tt) (Err Expected.End) }
{
    if is_blank(rest) {
        return Ok(());
    }
    Err(Expected::End)
}
