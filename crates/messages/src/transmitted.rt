// A transmitted frame: each entry of its mapping is put into the rest of the frame after the one before.
ghost use Rattle.std.specs.Prelude.{◌≡◌, false, ◌≤◌, length};
ghost use Rattle.profile.specs.Answers.{buffer_answer};
ghost use Rattle.profile.specs.Bytes.{bytes_of};
ghost use Rattle.profile.specs.MappedEntries as mapped;
ghost use Rattle.profile.specs.MappedEntries.{receives};
ghost use Rattle.profile.specs.Calls.{Call};
ghost use Rattle.store.specs.Promises.{Ensured, Readable};
ghost use Rattle.messages.specs.View.{Shown, EntryPut, Filled, Sent};

use crate::conditions::is_active;
use channels::fields::last_at;
use dictionary::entries::find;
use dictionary::refusals::check_transmit;
use lines::machines;
use mappings::{entries_at, in_force, index_of, moved, sub_of, total, transmitted};
use profile::refusals::Refusal;
use profile::{Home, Message};
use store::Store;

// The answer is how many bytes were written: none unless operational.
#[tactic(auto, using(crate::proofs::FrameLaws::for_transmit), unfolding(profile::specs::Refusals::transmit_refusal))]
pub fn transmit(store: &Store, message: Message, frame: &mut [u8]) -> Result<usize, Refusal>
    ensures { Ensured store.now (Call.transmit message frame.old) (buffer_answer result frame.new) store.now }
{
    check_transmit(frame.len())?;
    if !is_active(store) {
        return Ok(0);
    }
    let m = transmitted(message);
    let entries = entries_at(&store.deltas, m);
    let n = in_force(&store.deltas, m);
    Ok(send(store, m, &entries[..n], frame))
}

// The bytes put into the frame: none where they are more than it has, which no list of calls leads to.
fn send(store: &Store, m: usize, entries: &[u32], frame: &mut [u8]) -> usize
    requires { (receives m ≡ false) × (length entries.now ≤ 8) × (length frame.old ≡ 8) }
    ensures { Sent store.now m entries.now frame.old frame.new result }
{
    let count = total(m, entries);
    if 8 < count {
        return 0;
    }
    put_each(store, m, entries, frame);
    count
}

// The first entry is put at the front, the others into the rest.
#[tactic(auto, using(crate::proofs::FrameLaws::filled_more))]
fn put_each(store: &Store, m: usize, entries: &[u32], frame: &mut [u8])
    requires { (receives m ≡ false) × (mapped.total m entries.now ≤ length frame.old) }
    ensures { Filled store.now m entries.now frame.old frame.new }
{
    if let [entry, others @ ..] = entries {
        let (bytes, rest) = frame.split_at_mut(moved(m, *entry));
        put_entry(store, *entry, bytes);
        put_each(store, m, others, rest);
    }
}

#[tactic(auto, unfolding(profile::specs::MappedEntries::moves, profile::specs::MappedEntries::moved))]
fn put_entry(store: &Store, entry: u32, bytes: &mut [u8])
    ensures { EntryPut store.now entry bytes.old bytes.new }
{
    if let Ok(found) = find(index_of(entry), sub_of(entry)) {
        #[tactic(auto, using(store::proofs::EntryLaws::entry_readable))]
        put(bytes, shown(store, found.home));
    }
}

// What a read answers of an entry that a transmit mapping takes.
#[tactic(auto, unfolding(profile::specs::Replies::read_value, profile::specs::AnalogueInput::read_analogue_input))]
fn shown(store: &Store, home: Home) -> u32
    requires { Readable home }
    ensures { Shown store.now home result }
{
    match home {
        Home::Window(row, width, sub) => machines::read(&store.words, row, width, sub),
        Home::InputChannel(_, n) => u32::from(last_at(&store.values, n).cast_unsigned()),
        _ => 0,
    }
}

// The value's bytes, least significant first.
#[tactic(auto, using(crate::proofs::FrameLaws::for_put))]
fn put(bytes: &mut [u8], value: u32)
    ensures { bytes.new ≡ bytes_of (length bytes.old) value }
{
    let mut left = value;
    for byte in bytes {
        *byte = (left % 256) as u8;
        left /= 256;
    }
}
