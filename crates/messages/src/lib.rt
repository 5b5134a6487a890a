// receive and transmit, in place: the process data messages of document 02.
#![tactic(auto)]

// Whether the node is operational, and a frame as long as its mapping.
pub mod conditions;
// A received frame as plain writes.
pub mod received;
// A frame filled from the entries of a mapping.
pub mod transmitted;
