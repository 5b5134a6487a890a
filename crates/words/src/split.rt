// The words of a line: runs of bytes between spaces.
ghost use Rattle.std.specs.Prelude.{◌≡◌, true, false, drop};
ghost use Rattle.words.specs.Words.{InFront, WordEnd, first_word, after_word, is_blank, without_return, content_of};

// How many bytes in front are `byte`.
pub fn leading(line: &[u8], byte: u8) -> usize
    ensures { InFront true byte line.now result }
{
    line.iter().position(|&b| b != byte).unwrap_or(line.len())
}

// How many bytes stand before the first `byte`.
pub fn until(line: &[u8], byte: u8) -> usize
    ensures { InFront false byte line.now result }
{
    line.iter().position(|&b| b == byte).unwrap_or(line.len())
}

// Where the first word ends.
#[tactic(auto, unfolding(crate::specs::Words::word_end, crate::specs::Words::first_word))]
pub fn word_end(line: &[u8]) -> usize
    ensures { WordEnd line.now result }
{
    let from = leading(line, b' ');
    from + until(&line[from..], b' ')
}

// Empty where only spaces are left.
#[tactic(auto, unfolding(crate::specs::Words::first_word))]
pub fn first_word(line: &[u8]) -> &[u8]
    ensures { result.now ≡ first_word line.now }
{
    let text = &line[leading(line, b' ')..];
    &text[..until(text, b' ')]
}

#[tactic(auto, unfolding(crate::specs::Words::after_word))]
pub fn after_word(line: &[u8]) -> &[u8]
    ensures { result.now ≡ after_word line.now }
{
    &line[word_end(line)..]
}

// Only spaces are left.
pub fn is_blank(line: &[u8]) -> bool
    ensures { result ≡ is_blank line.now }
{
    first_word(line).is_empty()
}

pub fn without_first(word: &[u8]) -> &[u8]
    ensures { result.now ≡ drop 1 word.now }
{
    word.get(1..).unwrap_or(word)
}

// A carriage return at the end is passed over.
fn without_return(line: &[u8]) -> &[u8]
    ensures { result.now ≡ without_return line.now }
{
    line.strip_suffix(b"\r").unwrap_or(line)
}

// A line without its comment and without a carriage return at its end.
#[tactic(auto, unfolding(crate::specs::Words::content_of))]
pub fn content(line: &[u8]) -> &[u8]
    ensures { result.now ≡ content_of line.now }
{
    let text = without_return(line);
    &text[..until(text, b'#')]
}
