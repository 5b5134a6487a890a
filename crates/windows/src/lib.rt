// Twenty rows of 128 lines, bit-parallel in words of 64 bits, two words each, in an array that the caller lends.
#![tactic(auto)]

// Windows on the rows, and whole rows.
pub mod access;
// One row of lines.
pub mod rows;

// How many words the rows take.
pub const WORDS: usize = 40;

// The array that the device lends.
pub type Words = [u64; WORDS];

// One row of 128 lines.
#[derive(Clone, Copy, PartialEq, Eq, Debug)]
pub struct Row {
    pub low: u64,
    pub high: u64,
}
