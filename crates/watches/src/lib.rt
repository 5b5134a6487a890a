// The heartbeat watch of document 02: the four entries of object 1016 in the array that the device lends.
#![tactic(auto)]

ghost use Rattle.std.specs.Prelude.{◌≡◌, ◌<◌, map};
ghost use Rattle.profile.specs.Numbers.{number_answered};
ghost use Rattle.profile.specs.Refusals.{first, watch_checks};
ghost use Rattle.profile.specs.Watch.{take_heartbeat, take_time, expires, is_due, write_watch};
ghost use Rattle.profile.specs.WatchEntries.{watch_at, node_in, time_in, is_used, watches, is_second};
ghost use Rattle.watches.specs.View.{entry_of, watches_of, WatchesLeft};
ghost use Rattle.channels.specs.View.{Zeroed};

use channels::fields::{DELTAS, Deltas, zero_deltas};
use profile::refusals::Refusal;

// What a heartbeat and time that passes depend on.
pub mod conditions;

// In deltas, where the mappings end.
const VALUES: usize = 120;

// Of each entry 0 while it waits for a first heartbeat, else its sum plus 1.
const COUNTS: usize = 124;

const WAITING: u32 = 0;

// With the sum 0.
const STARTED: u32 = 1;

const ENTRIES: usize = 4;

// The value of an entry.
#[tactic(auto, using(crate::proofs::ViewLaws::value_is))]
pub fn read(deltas: &Deltas, n: usize) -> u32
    requires { n < 4 }
    ensures { result ≡ (watch_at (watches_of deltas.now) n).value }
{
    deltas[VALUES + n]
}

// A write stops the watch of its entry.
pub fn write(deltas: &mut Deltas, n: usize, value: u32)
    requires { n < 4 }
    ensures { WatchesLeft (write_watch n value (watches_of deltas.old)) deltas.old deltas.new }
{
    deltas[VALUES + n] = value;
    deltas[COUNTS + n] = WAITING;
}

// Whether a value may be written to an entry.
#[tactic(auto, unfolding(profile::specs::Refusals::watch_checks))]
pub fn check(deltas: &Deltas, n: usize, value: u32) -> Result<(), Refusal>
    requires { n < 4 }
    ensures { number_answered result ≡ first (watch_checks (watches_of deltas.now) n value) }
{
    if is_second(deltas, n, value) {
        return Err(Refusal::NodeTwice);
    }
    Ok(())
}

// Every entry becomes empty.
pub fn empty(deltas: &mut Deltas)
    ensures { Zeroed 120 128 deltas.old deltas.new }
{
    zero_deltas(deltas, VALUES, DELTAS);
}

// A heartbeat of a node starts the watch of the entry that names it, or sets its sum to 0.
#[tactic(auto, using(crate::proofs::SweepLaws::swept_more, crate::proofs::SweepLaws::swept_all))]
pub fn heartbeat(deltas: &mut Deltas, node: u8)
    ensures { WatchesLeft (map (take_heartbeat node) (watches_of deltas.old)) deltas.old deltas.new }
{
    for i in 0..ENTRIES {
        deltas[COUNTS + i] = count_after_heartbeat(deltas[VALUES + i], deltas[COUNTS + i], node);
    }
}

// Milliseconds pass; whether an entry expires.
#[tactic(auto, using(crate::proofs::SweepLaws::passed_more, crate::proofs::SweepLaws::due_all, crate::proofs::SweepLaws::passed_all))]
pub fn pass(deltas: &mut Deltas, milliseconds: u32) -> bool
    ensures due { result ≡ is_due milliseconds (watches_of deltas.old) }
    ensures left { WatchesLeft (map (take_time milliseconds) (watches_of deltas.old)) deltas.old deltas.new }
{
    let mut due = false;
    for n in 0..ENTRIES {
        let value = deltas[VALUES + n];
        let count = deltas[COUNTS + n];
        due |= expires(value, count, milliseconds);
        deltas[COUNTS + n] = count_after(value, count, milliseconds);
    }
    due
}

// Whether another entry is used, and for the node of this value, which is used too.
#[tactic(auto, using(crate::proofs::SecondLaws::named_more, crate::proofs::SecondLaws::second_by))]
fn is_second(deltas: &Deltas, n: usize, value: u32) -> bool
    ensures { result ≡ is_second n value (watches_of deltas.now) }
{
    let node = node_in(value);
    let mut named = false;
    for j in 0..ENTRIES {
        named |= (j != n) & watches(deltas[VALUES + j], node);
    }
    is_used(value) & named
}

#[tactic(auto, unfolding(profile::specs::Watch::take_heartbeat))]
fn count_after_heartbeat(value: u32, count: u32, node: u8) -> u32
    ensures { entry_of value result ≡ take_heartbeat node (entry_of value count) }
{
    if watches(value, node) { STARTED } else { count }
}

#[tactic(auto, using(crate::proofs::EntryLaws::passed_by), unfolding(profile::specs::Watch::take_time))]
fn count_after(value: u32, count: u32, milliseconds: u32) -> u32
    ensures { entry_of value result ≡ take_time milliseconds (entry_of value count) }
{
    if (count == WAITING) | expires(value, count, milliseconds) {
        WAITING
    } else {
        count.saturating_add(milliseconds)
    }
}

// The count is the sum plus 1, so it passes the time where the sum reaches it; 2^32 - 1, where the addition stops, is past each time.
#[tactic(auto, using(crate::proofs::EntryLaws::expires_by))]
fn expires(value: u32, count: u32, milliseconds: u32) -> bool
    ensures { result ≡ expires milliseconds (entry_of value count) }
{
    (count != WAITING) & (time_in(value) < count.saturating_add(milliseconds))
}

// Whether an entry with this value is used, and for this node.
#[tactic(auto, unfolding(profile::specs::WatchEntries::watches))]
fn watches(value: u32, node: u8) -> bool
    ensures { result ≡ watches node value }
{
    is_used(value) & (node_in(value) == node)
}

// Time 0 or a node outside 1 to 127 means unused.
#[tactic(auto, unfolding(profile::specs::WatchEntries::is_used))]
fn is_used(value: u32) -> bool
    ensures { result ≡ is_used value }
{
    let node = node_in(value);
    (time_in(value) != 0) & ((1 <= node) & (node <= 127))
}

// A value has a node in bits 16 to 23, and milliseconds in bits 0 to 15.
#[tactic(auto, unfolding(profile::specs::WatchEntries::node_in))]
fn node_in(value: u32) -> u8
    ensures { result ≡ node_in value }
{
    (value / 65_536 % 256) as u8
}

#[tactic(auto, unfolding(profile::specs::WatchEntries::time_in))]
fn time_in(value: u32) -> u32
    ensures { result ≡ time_in value }
{
    value % 65_536
}
