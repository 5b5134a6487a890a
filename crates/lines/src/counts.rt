// The counts of all input lines, bit-parallel in eight rows: row COUNT + b has bit b of every count.
ghost use Rattle.windows.specs.Promises.{Lined, cleared};
ghost use Rattle.lines.specs.Promises.{Reached, Compared, counted_at};

use windows::access::{clear_rows, row, set_row};
use windows::{Row, Words};

pub(crate) const COUNT: usize = 12;

const BITS: usize = 8;

// Past the last row.
const END: usize = 20;

// The lines whose count, one higher, reaches or passes the filter length, which is `samples`: the counts are compared with the length
// less 1, from the lowest bit up.
#[tactic(auto, using(crate::proofs::CountLaws::for_reached))]
pub(crate) fn reached(words: &Words, samples: u8) -> Row
    ensures { Reached words.now samples result }
{
    // The length 0, which no list of calls leaves, counts as 1.
    let least = samples.saturating_sub(1);
    let mut reaches = Row::ALL;
    for b in 0..BITS {
        let bit = row(words, COUNT + b);
        reaches = compared(bit, (least >> b) % 2 == 1, reaches);
    }
    reaches
}

// One bit more of a comparison with a number: `lower` has the lines whose lower bits are at least the number's, `of` is the number's bit.
fn compared(bit: Row, of: bool, lower: Row) -> Row
    ensures { Compared bit of lower result }
{
    if of { bit & lower } else { bit | lower }
}

// The counts of these lines rise by 1, those of all others become 0.
pub(crate) fn count_on(words: &mut Words, counts: Row)
    ensures { Lined words.new (counted_at words.old counts) }
{
    let mut carry = counts;
    for b in 0..BITS {
        let bit = row(words, COUNT + b);
        set_row(words, COUNT + b, (bit ^ carry) & counts);
        carry = bit & carry;
    }
}

// All counts become 0.
pub(crate) fn clear_counts(words: &mut Words)
    ensures { Lined words.new (cleared words.old 12 20) }
{
    clear_rows(words, COUNT, END);
}
