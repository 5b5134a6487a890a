// The device's thirteen calls for firmware in C, in place on the device that the firmware lends: it is the header's io401_device. Each
// exported function is the device's own and promises what it promises.
#![tactic(auto)]

// What the calls answer to C.
pub mod answers;
// The calls.
pub mod calls;
// Between C and the device's types.
mod causes;
mod which;
