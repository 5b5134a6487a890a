// What an answer line is made of: numbers, bytes and words as text.
#![tactic(auto)]

// Bytes put into a lent buffer.
pub mod text;
