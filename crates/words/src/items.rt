// Lists of bytes and of numbers in a line, up to a `/` or the line's end.
ghost use Rattle.std.specs.Prelude.{◌≡◌, take};
ghost use Rattle.words.specs.Words.{words_of};
ghost use Rattle.words.specs.Items.{Item, ReadInto, byte_item, number_item, read_as, is_over};

use crate::Expected;
use crate::buffers::Buffer;
use crate::numbers::{hexadecimal, signed};
use crate::split::{after_word, first_word};

// What reading a list finds: the items, and what is left of the line.
#[derive(Clone, Copy, Drop)]
pub struct Items<'a, B> {
    pub items: B,
    pub rest: &'a [u8],
}

// What a list is made of.
pub trait ListItem: Copy {
    ghost kind: { Item Self };

    fn read(word: &[u8]) -> Result<Self, Expected>
        ensures { result ≡ read_as kind word.now };
}

impl ListItem for u8 {
    ghost kind = { byte_item };

    fn read(word: &[u8]) -> Result<u8, Expected> {
        hexadecimal(word, 2)
            .and_then(|n| u8::try_from(n).ok())
            .ok_or(Expected::Byte)
    }
}

impl ListItem for i16 {
    ghost kind = { number_item };

    fn read(word: &[u8]) -> Result<i16, Expected> {
        signed(word).ok_or(Expected::Signed)
    }
}

// No item follows: the line ends, or a `/` stands there.
#[tactic(auto, using(crate::proofs::ItemLaws::over_is, crate::proofs::SplitLaws::is_word_is))]
pub fn is_over(line: &[u8]) -> bool
    ensures { result ≡ is_over (words_of line.now) }
{
    let word = first_word(line);
    word.is_empty() || word == b"/".as_slice()
}

#[tactic(auto, using(crate::proofs::ItemLaws::not_over, crate::proofs::SplitLaws::after_shorter))]
pub fn read_items<'a, T: ListItem, B: Buffer<T>>(line: &'a [u8]) -> Result<Items<'a, B>, Expected>
    ensures { ReadInto T.kind B.most B.held line.now result }
{
    let mut items = B::empty();
    let mut rest = line;
    while !is_over(rest) {
        let item = T::read(first_word(rest))?;
        if items.is_full() {
            return Err(Expected::Fewer);
        }
        items.put(item);
        rest = after_word(rest);
    }
    Ok(Items { items, rest })
}

// The first n, or all where there are fewer.
pub fn first_items<T>(items: &[T], n: usize) -> &[T]
    ensures { result.now ≡ take n items.now }
{
    items.get(..n).unwrap_or(items)
}
