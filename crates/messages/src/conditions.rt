// What a message depends on: a reader of the answers is told why nothing came of one.
ghost use Rattle.std.specs.Prelude.{◌≡◌, leb};
ghost use Rattle.profile.specs.Nodes.{operational};
ghost use Rattle.profile.specs.MappedEntries as mapped;
ghost use Rattle.mappings.specs.View.{mapping_at};
ghost use Rattle.store.specs.View.{node_at};

use mappings::{entries_at, in_force, received, total};
use nodes::is_operational;
use profile::Message;
use store::Store;

pub fn is_active(store: &Store) -> bool
    ensures { result ≡ operational (node_at store.now.octets store.now.flags) }
{
    is_operational(store.node())
}

// A frame of that many bytes has all that its mapping moves.
pub fn is_long(store: &Store, message: Message, size: usize) -> bool
    ensures { result ≡ leb (mapped.total (mapped.received message)
        (mapped.listed (mapping_at store.now.deltas (mapped.received message)))) size }
{
    let m = received(message);
    let entries = entries_at(&store.deltas, m);
    let n = in_force(&store.deltas, m);
    total(m, &entries[..n]) <= size
}
