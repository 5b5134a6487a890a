// The notation of a list of calls: a line as a call.
#![tactic(auto)]

use profile::{Cause, Message};
use words::held::Held;

// Bytes up to a line's end.
mod bytes;
// A line as a call.
pub mod calls;
// A receive or a transmit, by the words after it.
mod messages;
// A heartbeat or an elapsed call, by the words after it.
mod heartbeats;
// A number, a slash or the end, as the next thing in a line.
mod parts;
// A request, by the words after it.
mod requests;

// What a line says, with its data.
#[derive(Clone, Copy)]
pub enum Call {
    // An empty line, or a comment.
    Nothing,
    // Node number.
    Create(u8),
    // Index, sub-index.
    Read(u16, u8),
    // Index, sub-index, bytes.
    Write(u16, u8, Held<u8, 512>),
    // Digital bytes, analogue numbers, event bytes.
    Sample(Held<u8, 64>, Held<i16, 64>, Held<u8, 64>),
    // Code, node number.
    Command(u8, u8),
    Raise(Cause),
    Clear(Cause),
    // Bytes, numbers.
    Drive(Held<u8, 64>, Held<i16, 64>),
    // The frame's bytes.
    Receive(Message, Held<u8, 64>),
    // The bytes of the frame as it is lent.
    Transmit(Message, Held<u8, 64>),
    // The request's bytes, and the bytes of the reply as it is lent.
    Request(Held<u8, 64>, Held<u8, 64>),
    // Node number.
    Heartbeat(u8),
    // Milliseconds.
    Elapsed(u32),
}
