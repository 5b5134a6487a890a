// Windows of 1, 8, 16 or 32 lines on the rows, and whole rows.
ghost use Rattle.std.specs.Prelude.{◌≡◌, ◌+◌, ◌*◌, ◌/◌, ◌%◌, ◌^◌, ◌≤◌, ◌<◌};
ghost use Rattle.profile.specs.Entries.{first_line};
ghost use Rattle.windows.specs.View.{window};
ghost use Rattle.windows.specs.Promises.{Covers, Lined, written, masked, row_set, cleared, RowOf};

use crate::{Row, Words};

// Where a window lies: the index of its word, and its lowest bit in it.
#[derive(Clone, Copy)]
struct Place {
    word: usize,
    shift: usize,
}

// Every width has this one lookup, by its exponent and with shifts; a word has 1 << 6 lines.
fn locate(row: usize, width: usize, sub: usize) -> Place
    requires { Covers row width sub }
    ensures { (result.word ≡ 2 * row + first_line width sub / 64) × (result.shift ≡ first_line width sub % 64) }
{
    let exponent = width.trailing_zeros();
    let first = (sub - 1) << exponent;
    Place {
        word: 2 * row + (first >> 6),
        shift: first & 63,
    }
}

// The value of a window.
#[tactic(auto, using(crate::proofs::WindowLaws::window_read))]
pub fn get(words: &Words, row: usize, width: usize, sub: usize) -> u32
    requires { Covers row width sub }
    ensures { result ≡ window words.now row width sub }
{
    let found = locate(row, width, sub);
    let at = found.word;
    let word = words[at];
    let mask = (1u64 << width) - 1;
    ((word >> found.shift) & mask) as u32
}

// A window's value is replaced.
pub fn put(words: &mut Words, row: usize, width: usize, sub: usize, value: u32)
    requires covers { Covers row width sub }
    requires value_bound { value < 2 ^ width }
    ensures { Lined words.new (written words.old row width sub value) }
{
    let found = locate(row, width, sub);
    let at = found.word;
    let old = words[at];
    let mask = ((1u64 << width) - 1) << found.shift;
    words[at] = (old & !mask) | (u64::from(value) << found.shift);
}

// The same where the line of the row `gate` is 1.
pub fn put_masked(words: &mut Words, row: usize, gate: usize, width: usize, sub: usize, value: u32)
    requires covers { Covers row width sub }
    requires gate_bound { gate < 20 }
    requires value_bound { value < 2 ^ width }
    ensures { Lined words.new (masked words.old row gate width sub value) }
{
    let kept = get(words, row, width, sub);
    let mask = get(words, gate, width, sub);
    put(words, row, width, sub, (kept & !mask) | (value & mask));
}

// A whole row.
#[tactic(auto, using(crate::proofs::RowLaws::row_read))]
pub fn row(words: &Words, a: usize) -> Row
    requires { a < 20 }
    ensures { RowOf words.now a result }
{
    let at = 2 * a;
    Row {
        low: words[at],
        high: words[at + 1],
    }
}

// A whole row is replaced.
pub fn set_row(words: &mut Words, a: usize, new: Row)
    requires { a < 20 }
    ensures { Lined words.new (row_set words.old a new) }
{
    let at = 2 * a;
    words[at] = new.low;
    words[at + 1] = new.high;
}

// The rows from `from` up to `to` become 0, the last left out.
pub fn clear_rows(words: &mut Words, from: usize, to: usize)
    requires { (from ≤ to) × (to ≤ 20) }
    ensures { Lined words.new (cleared words.old from to) }
{
    for a in from..to {
        set_row(words, a, Row::NONE);
    }
}
