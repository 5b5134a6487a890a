// The eight bytes of a request and of a reply of the service data server, as CiA 301 lays them out.
#![tactic(auto)]

// The fields of the first byte.
pub mod first;
// The bytes of a reply.
pub mod replies;
// What a request asks.
pub mod requests;
