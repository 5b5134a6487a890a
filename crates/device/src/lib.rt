// The device of documents 01 and 02, and its thirteen calls as methods. Every call is refused or accepted on every input.
#![tactic(auto)]

use profile::refusals::Refusal;
use store::Store;

// receive and transmit as methods.
pub mod frames;
// The eight calls of document 01 as methods.
pub mod methods;
// What the player's remarks on writes and commands ask of a device.
pub mod remarks;
// request as a method.
pub mod requests;
// heartbeat and elapsed as methods, and what the player's remarks ask of the watch.
pub mod watch;

#[derive(Clone, Copy)]
pub struct Device {
    pub store: Store,
}

// What a call hands back: its answer, or why it is refused, and the device.
#[derive(Clone, Copy)]
pub struct Answer<T> {
    pub answer: Result<T, Refusal>,
    pub device: Device,
}
