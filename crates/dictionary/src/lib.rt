// The object dictionary of document 01 and its refusals.
#![tactic(auto)]

// Which entry an index and a sub-index name.
pub mod entries;
// Why a call is refused.
pub mod refusals;
