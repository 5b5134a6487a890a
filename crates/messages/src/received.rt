// A received frame: the plain writes of the entries of its mapping, in order.
ghost use Rattle.std.specs.Prelude.{◌≡◌, ◌≤◌, length};
ghost use Rattle.profile.specs.MappedEntries as mapped;
ghost use Rattle.profile.specs.Calls.{Call};
ghost use Rattle.profile.specs.Heard.{frame_writes};
ghost use Rattle.profile.specs.Replies.{plain};
ghost use Rattle.store.specs.Promises.{Ensured};
ghost use Rattle.messages.specs.View.{Heard, entry_writes, long_writes};

use crate::conditions::is_active;
use mappings::{entries_at, in_force, index_of, moved, received, sub_of, total};
use objects::write;
use profile::Message;
use store::Store;

// A frame shorter than its mapping, or for a node not operational, does nothing.
#[tactic(auto, unfolding(profile::specs::Replies::reply, profile::specs::Heard::number_of, profile::specs::Replies::answer_to))]
pub fn receive(store: &mut Store, message: Message, frame: &[u8])
    ensures { Ensured store.old (Call.receive message frame.now) (plain 0) store.new }
{
    if !is_active(store) {
        return;
    }
    let m = received(message);
    let entries = entries_at(&store.deltas, m);
    let n = in_force(&store.deltas, m);
    obey(store, m, &entries[..n], frame);
}

fn obey(store: &mut Store, m: usize, entries: &[u32], frame: &[u8])
    requires { length entries.now ≤ 8 }
    ensures { Heard store.old (long_writes m entries.now frame.now) store.new }
{
    if frame.len() < total(m, entries) {
        return;
    }
    write_each(store, m, entries, frame);
}

// The first entry takes the front of the frame, the others the rest.
#[tactic(auto, using(crate::proofs::FrameLaws::for_write_each))]
fn write_each(store: &mut Store, m: usize, entries: &[u32], frame: &[u8])
    requires { mapped.total m entries.now ≤ length frame.now }
    ensures { Heard store.old (frame_writes m entries.now frame.now) store.new }
{
    if let [entry, others @ ..] = entries {
        let (data, rest) = frame.split_at(moved(m, *entry));
        write_entry(store, m, *entry, data);
        write_each(store, m, others, rest);
    }
}

// An entry that moves nothing has no data and is not written; the others are accepted, as `frame_accepted` says.
#[tactic(auto, using(profile::proofs::MappedLaws::moves_none), unfolding(profile::specs::MappedEntries::moved))]
fn write_entry(store: &mut Store, m: usize, entry: u32, bytes: &[u8])
    requires { length bytes.now ≡ mapped.moved m entry }
    ensures { Heard store.old (entry_writes m entry bytes.now) store.new }
{
    if !bytes.is_empty() {
        let _ = write(store, index_of(entry), sub_of(entry), bytes);
    }
}
