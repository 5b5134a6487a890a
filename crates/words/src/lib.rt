// What a line of a list is made of: words, numbers and lists of them, and a line as an expected answer.
#![tactic(auto)]

// The words of a line.
pub mod split;
// Numbers as digits spell them.
pub mod numbers;
// Buffers that hold items up to a number of them.
pub mod buffers;
// A buffer that can be copied.
pub mod held;
// Lists of bytes and of numbers in a line.
pub mod items;
// A line as an expected answer.
pub mod expectations;

// What should have stood in the line.
#[derive(Clone, Copy, Debug, PartialEq, Eq)]
pub enum Expected {
    Call,
    Byte,
    // From 0 to 255.
    Small,
    // From -32768 to 32767.
    Signed,
    Cause,
    // `=` as a word of its own, or the end of the line.
    Data,
    // `/`
    Slash,
    // At most 64 bytes or numbers.
    Fewer,
    // The end of the line.
    End,
    // At most 1,024 bytes.
    Shorter,
    // An answer line before this line.
    Answer,
    // From 1 to 4.
    Message,
    // From 0 to 4294967295.
    Milliseconds,
}
