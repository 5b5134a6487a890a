// Lines that say what the last answer line has to be: `> 0 = 0F`.
ghost use Rattle.std.specs.Prelude.{◌≡◌};
ghost use Rattle.words.specs.Words.{words_of};
ghost use Rattle.words.specs.Expectations.{is_expectation, before_parenthesis, expected_of, same_words, is_as_expected};

use crate::split::{after_word, content, first_word, is_blank, until, without_first};

// The line begins with `>`.
#[tactic(auto, unfolding(crate::specs::Expectations::is_expectation))]
pub fn is_expectation(line: &[u8]) -> bool
    ensures { result ≡ is_expectation line.now }
{
    first_word(content(line)).starts_with(b">")
}

// What stands after the `>`, up to words in parentheses.
#[tactic(auto, unfolding(crate::specs::Expectations::expected_of))]
pub fn expected(line: &[u8]) -> &[u8]
    ensures { result.now ≡ expected_of line.now }
{
    let text = content(line);
    before_parenthesis(without_first(&text[until(text, b'>')..]))
}

#[tactic(auto, unfolding(crate::specs::Expectations::before_parenthesis))]
fn before_parenthesis(text: &[u8]) -> &[u8]
    ensures { result.now ≡ before_parenthesis text.now }
{
    &text[..until(text, b'(')]
}

// An answer line has the words of an expected text.
#[tactic(auto, unfolding(crate::specs::Expectations::is_as_expected))]
pub fn is_as_expected(answer: &[u8], text: &[u8]) -> bool
    ensures { result ≡ is_as_expected answer.now text.now }
{
    same_words(before_parenthesis(answer), text)
}

#[tactic(auto, using(crate::proofs::ExpectationLaws::same_step, crate::proofs::SplitLaws::after_shorter))]
fn same_words(a: &[u8], b: &[u8]) -> bool
    ensures { result ≡ same_words (words_of a.now) (words_of b.now) }
{
    if is_blank(a) {
        return is_blank(b);
    }
    first_word(a) == first_word(b) && same_words(after_word(a), after_word(b))
}
