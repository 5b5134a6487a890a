// What a heartbeat and time that passes depend on: a reader of the answers is told why nothing came of one, or that an entry expired.
ghost use Rattle.std.specs.Prelude.{◌≡◌, ◌<◌};
ghost use Rattle.profile.specs.Watch as machine;
ghost use Rattle.profile.specs.WatchEntries as entry;
ghost use Rattle.watches.specs.View.{entry_at, watches_of};

use crate::{COUNTS, VALUES, WAITING, expires, watches};
use channels::fields::Deltas;

// A used entry names the node.
#[tactic(auto, unfolding(profile::specs::Watch::is_watched))]
pub fn is_watched(deltas: &Deltas, node: u8) -> bool
    ensures { result ≡ machine.is_watched node (watches_of deltas.now) }
{
    is_named(deltas, 0, node)
        | is_named(deltas, 1, node)
        | is_named(deltas, 2, node)
        | is_named(deltas, 3, node)
}

fn is_named(deltas: &Deltas, n: usize, node: u8) -> bool
    requires { n < 4 }
    ensures { result ≡ entry.watches node (entry_at deltas.now n).value }
{
    watches(deltas[VALUES + n], node)
}

// A watch is started.
#[tactic(auto, unfolding(profile::specs::Watch::any_started))]
pub fn any_started(deltas: &Deltas) -> bool
    ensures { result ≡ machine.any_started (watches_of deltas.now) }
{
    is_started(deltas, 0) | is_started(deltas, 1) | is_started(deltas, 2) | is_started(deltas, 3)
}

fn is_started(deltas: &Deltas, n: usize) -> bool
    requires { n < 4 }
    ensures { result ≡ (entry_at deltas.now n).started }
{
    deltas[COUNTS + n] != WAITING
}

// An entry expires by so many milliseconds more.
#[tactic(auto, unfolding(profile::specs::Watch::is_due))]
pub fn is_due(deltas: &Deltas, milliseconds: u32) -> bool
    ensures { result ≡ machine.is_due milliseconds (watches_of deltas.now) }
{
    is_expiring(deltas, 0, milliseconds)
        | is_expiring(deltas, 1, milliseconds)
        | is_expiring(deltas, 2, milliseconds)
        | is_expiring(deltas, 3, milliseconds)
}

fn is_expiring(deltas: &Deltas, n: usize, milliseconds: u32) -> bool
    requires { n < 4 }
    ensures { result ≡ machine.expires milliseconds (entry_at deltas.now n) }
{
    expires(deltas[VALUES + n], deltas[COUNTS + n], milliseconds)
}
