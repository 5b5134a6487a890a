// What the calls of the device do to every input line and output line, in place.
ghost use Rattle.std.specs.Prelude.{◌≡◌, ◌^◌, ◌≤◌, ◌<◌, length};
ghost use Rattle.windows.specs.Promises.{Covers, Lined};
ghost use Rattle.lines.specs.Promises.{Fresh, Read, Written, Sampled, Moved, Driven, settled_at, driven_at};

use crate::counts::{COUNT, clear_counts, count_on, reached};
use windows::access::{clear_rows, get, put, put_masked, row, set_row};
use windows::{Row, Words};

// The rows by name: document 01's table in its order, with the settled bit in row 0; then the driven bit. The counts' rows come after.
const SETTLED: usize = 0;

const POLARITY: usize = 1;

const FILTER: usize = 2;

const ANY_CHANGE: usize = 3;

const LOW_TO_HIGH: usize = 4;

const HIGH_TO_LOW: usize = 5;

const OUTPUT: usize = 6;

const OUTPUT_POLARITY: usize = 7;

const ERROR_MODE: usize = 8;

const ERROR_VALUE: usize = 9;

const OUTPUT_MASK: usize = 10;

const DRIVEN: usize = 11;

// Every line with its defaults: any change, error mode and output filter mask are 1, all else is 0.
pub fn fresh(words: &mut Words)
    ensures { Fresh words.new }
{
    // In two parts with other stores between them: one fill of more than 256 bytes is compiled to a call of memset.
    clear_rows(words, SETTLED, COUNT);
    set_row(words, ANY_CHANGE, Row::ALL);
    set_row(words, ERROR_MODE, Row::ALL);
    set_row(words, OUTPUT_MASK, Row::ALL);
    clear_counts(words);
}

// Inputs read under their polarity, every other row as it stands.
#[tactic(auto, using(crate::proofs::AccessLaws::read_input, crate::proofs::AccessLaws::read_plain))]
pub fn read(words: &Words, row: usize, width: usize, sub: usize) -> u32
    requires covers { Covers row width sub }
    requires row_bound { row < 11 }
    ensures { Read words.now row width sub result }
{
    if row == SETTLED {
        return get(words, SETTLED, width, sub) ^ get(words, POLARITY, width, sub);
    }
    get(words, row, width, sub)
}

// Outside fault the driven lines follow what is written to the outputs or their polarity.
#[tactic(auto, using(crate::proofs::AccessLaws::wrote_plain))]
pub fn write(words: &mut Words, row: usize, width: usize, sub: usize, value: u32, fault: bool)
    requires covers { Covers row width sub }
    requires le_row { 1 ≤ row }
    requires row_bound { row < 11 }
    requires value_bound { value < 2 ^ width }
    ensures { Written fault words.old row width sub value words.new }
{
    match row {
        OUTPUT => write_output_lines(words, width, sub, value, fault),
        OUTPUT_POLARITY => write_output_polarity(words, width, sub, value, fault),
        _ => put(words, row, width, sub, value),
    }
}

// Only outputs whose filter mask is 1 take the value.
#[tactic(auto, using(crate::proofs::OutputLaws::for_lines))]
fn write_output_lines(words: &mut Words, width: usize, sub: usize, value: u32, fault: bool)
    requires covers { Covers 6 width sub }
    requires value_bound { value < 2 ^ width }
    ensures { Written fault words.old 6 width sub value words.new }
{
    let polarity = get(words, OUTPUT_POLARITY, width, sub);
    put_masked(words, OUTPUT, OUTPUT_MASK, width, sub, value);
    if fault {
        return;
    }
    put_masked(words, DRIVEN, OUTPUT_MASK, width, sub, value ^ polarity);
}

// Outputs that are driven invert with their polarity.
#[tactic(auto, using(crate::proofs::OutputLaws::for_polarity))]
fn write_output_polarity(words: &mut Words, width: usize, sub: usize, value: u32, fault: bool)
    requires covers { Covers 7 width sub }
    requires value_bound { value < 2 ^ width }
    ensures { Written fault words.old 7 width sub value words.new }
{
    let kept = get(words, OUTPUT, width, sub);
    put(words, OUTPUT_POLARITY, width, sub, value);
    if fault {
        return;
    }
    put(words, DRIVEN, width, sub, kept ^ value);
}

// One sample of every input line by the filter length, which is `samples`, and the edges that it makes.
pub fn sample(words: &mut Words, new: Row, samples: u8) -> Row
    ensures { Sampled words.old samples new result words.new }
{
    let before = row(words, SETTLED);
    let polarity = row(words, POLARITY);
    let rises = row(words, LOW_TO_HIGH);
    let falls = row(words, HIGH_TO_LOW);
    let any = row(words, ANY_CHANGE);
    settle(words, new, samples);
    let after = row(words, SETTLED);
    let changed = before ^ after;
    let reads = after ^ polarity;
    let direction = reads.pick(rises, falls);
    changed & (any | direction)
}

// The settled bits and the counts after a sample. A line takes the sample and its count becomes 0, unless it differs under its filter
// and its count, one higher, stays below the length: then the count rises.
fn settle(words: &mut Words, new: Row, samples: u8)
    ensures { Lined words.new (settled_at words.old samples new) }
{
    let differs = new ^ row(words, SETTLED);
    let waits = differs & row(words, FILTER);
    if waits.is_empty() {
        set_row(words, SETTLED, new);
        clear_counts(words);
        return;
    }
    let settles = waits & reached(words, samples);
    let counts = waits ^ settles;
    set_row(words, SETTLED, new ^ counts);
    count_on(words, counts);
}

// Fault begins: the error value, inverted where polarity is 1, is driven where error mode is 1. Fault ends: all outputs are driven again.
#[tactic(auto, using(crate::proofs::OutputLaws::unmoved, crate::proofs::OutputLaws::fault_begins, crate::proofs::OutputLaws::fault_ends))]
pub fn move_outputs(words: &mut Words, before: bool, after: bool)
    ensures { Moved before after words.old words.new }
{
    match (before, after) {
        (false, true) => {
            let mode = row(words, ERROR_MODE);
            let value = row(words, ERROR_VALUE);
            let polarity = row(words, OUTPUT_POLARITY);
            drive_row(words, mode, value, polarity);
        }
        (true, false) => {
            let kept = row(words, OUTPUT);
            let polarity = row(words, OUTPUT_POLARITY);
            drive_row(words, Row::ALL, kept, polarity);
        }
        _ => {}
    }
}

// Where the mask is 1 the driven lines become the source, inverted where polarity is 1.
#[tactic(auto, using(crate::proofs::OutputLaws::drives))]
fn drive_row(words: &mut Words, mask: Row, source: Row, polarity: Row)
    ensures { Lined words.new (driven_at words.old mask source polarity) }
{
    let driven = row(words, DRIVEN);
    set_row(words, DRIVEN, mask.pick(source ^ polarity, driven));
}

// The driven lines as sixteen bytes.
pub fn drive(words: &Words, out: &mut [u8; 16])
    ensures { Driven words.now out.new }
{
    row(words, DRIVEN).store(out);
}
