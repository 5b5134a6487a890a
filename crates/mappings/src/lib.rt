// The process data mappings of document 02: what their entries move, and the eight of them in the array that the device lends.
#![tactic(auto)]

ghost use Rattle.std.specs.Prelude.{◌≡◌, ◌≤◌, ◌<◌, length};
ghost use Rattle.profile.specs.MappedEntries.{received, transmitted, index_of, sub_of, mappable, moved, total};
ghost use Rattle.profile.specs.Mapping.{read_mapping};
ghost use Rattle.profile.specs.Numbers.{number_answered};
ghost use Rattle.profile.specs.Refusals.{first, mapping_checks};
ghost use Rattle.mappings.specs.View.{mapping_at, MappingStored, InForce};
ghost use Rattle.channels.specs.View.{Zeroed};

use channels::fields::{Deltas, zero_deltas};
use dictionary::entries::find;
use profile::refusals::Refusal;
use profile::{Home, Message};

// In deltas, after those of the channels.
pub const MAPPINGS: usize = 48;

// Of these the transmit mappings.
const TRANSMITTED: usize = 84;

// Past the last, where the watch begins.
const PAST: usize = 120;

// The numbers of a mapping: the count and eight entries, by sub-index.
const NUMBERS: usize = 9;

// The rows of the table of digital lines that a mapping takes.
const INPUT: usize = 0;

const OUTPUT: usize = 6;

// The place of a message's receive mapping among the eight.
pub fn received(message: Message) -> usize
    ensures { result ≡ received message }
{
    message as usize
}

// And of its transmit mapping.
pub fn transmitted(message: Message) -> usize
    ensures { result ≡ transmitted message }
{
    4 + message as usize
}

// An entry of a mapping names an index, a sub-index, and how many bits they have.
pub fn index_of(value: u32) -> u16
    ensures { result ≡ index_of value }
{
    (value / 65_536) as u16
}

pub fn sub_of(value: u32) -> u8
    ensures { result ≡ sub_of value }
{
    (value / 256 % 256) as u8
}

// The output row and 6411 by a receive mapping, the input row and 6401 by a transmit mapping.
fn is_mappable(mapping: usize, home: Home) -> bool
    ensures { result ≡ mappable mapping home }
{
    let receives = mapping < 4;
    match home {
        Home::Window(row, width, _) => {
            let taken = if receives { OUTPUT } else { INPUT };
            (row == taken) & (8 <= width)
        }
        Home::InputChannel(index, _) => !receives & (index == 0x6401),
        Home::OutputChannel(index, _) => receives & (index == 0x6411),
        _ => false,
    }
}

// How many bytes an entry moves: none where it is 0.
#[tactic(auto, using(crate::proofs::EntryLaws::moved_by))]
pub fn moved(mapping: usize, value: u32) -> usize
    ensures { result ≡ moved mapping value }
{
    let Ok(entry) = find(index_of(value), sub_of(value)) else {
        return 0;
    };
    let size = usize::from(entry.size);
    if is_mappable(mapping, entry.home) & ((value % 256) as usize == 8 * size) {
        size
    } else {
        0
    }
}

// And several.
#[tactic(auto, using(profile::proofs::MappedLaws::moved_small, crate::proofs::ViewLaws::summed_more))]
pub fn total(mapping: usize, entries: &[u32]) -> usize
    requires { length entries.now ≤ 8 }
    ensures { result ≡ total mapping entries.now }
{
    let mut sum = 0;
    for &entry in entries {
        sum += moved(mapping, entry);
    }
    sum
}

#[tactic(auto, using(crate::proofs::ViewLaws::read_is))]
pub fn read(deltas: &Deltas, m: usize, sub: usize) -> u32
    requires { (m < 8) × (sub ≤ 8) }
    ensures { result ≡ read_mapping sub (mapping_at deltas.now m) }
{
    deltas[MAPPINGS + (NUMBERS * m + sub)]
}

pub fn write(deltas: &mut Deltas, m: usize, sub: usize, value: u32)
    requires { (m < 8) × (sub ≤ 8) }
    ensures { MappingStored m sub value deltas.old deltas.new }
{
    deltas[MAPPINGS + (NUMBERS * m + sub)] = value;
}

// The receive mappings become empty, and the transmit mappings: in two parts, since a fill of more than 256 bytes would be compiled to a
// call of memset.
pub fn empty_received(deltas: &mut Deltas)
    ensures { Zeroed 48 84 deltas.old deltas.new }
{
    zero_deltas(deltas, MAPPINGS, TRANSMITTED);
}

pub fn empty_transmitted(deltas: &mut Deltas)
    ensures { Zeroed 84 120 deltas.old deltas.new }
{
    zero_deltas(deltas, TRANSMITTED, PAST);
}

// All eight entries of a mapping, in force or not.
pub fn entries_at(deltas: &Deltas, m: usize) -> [u32; 8]
    requires { m < 8 }
    ensures { result ≡ (mapping_at deltas.now m).entries }
{
    let first = MAPPINGS + NUMBERS * m + 1;
    let mut entries = [0; 8];
    entries.copy_from_slice(&deltas[first..first + 8]);
    entries
}

// How many of them are in force.
#[tactic(auto, using(crate::proofs::ViewLaws::at_most_eight), unfolding(profile::specs::Mapping::read_mapping))]
pub fn in_force(deltas: &Deltas, m: usize) -> usize
    requires { m < 8 }
    ensures { InForce deltas.now m result }
{
    (read(deltas, m, 0) as usize).min(8)
}

// Whether a value may be written to a mapping.
#[tactic(auto, using(crate::proofs::EntryLaws::for_check), unfolding(profile::specs::Mapping::read_mapping))]
pub fn check(deltas: &Deltas, m: usize, sub: usize, value: u32) -> Result<(), Refusal>
    requires { m < 8 }
    ensures { number_answered result ≡ first (mapping_checks (mapping_at deltas.now m) m sub value) }
{
    if sub == 0 {
        return check_count(deltas, m, value);
    }
    if read(deltas, m, 0) != 0 {
        return Err(Refusal::CountNotZero);
    }
    if (value != 0) & (moved(m, value) == 0) {
        return Err(Refusal::NotMappable);
    }
    Ok(())
}

#[tactic(auto, using(crate::proofs::EntryLaws::count_by))]
fn check_count(deltas: &Deltas, m: usize, value: u32) -> Result<(), Refusal>
    requires { m < 8 }
    ensures { number_answered result ≡ first (mapping_checks (mapping_at deltas.now m) m 0 value) }
{
    let count = value as usize;
    let entries = entries_at(deltas, m);
    if (8 < count) | (8 < total(m, &entries[..count.min(8)])) {
        return Err(Refusal::MappingTooLong);
    }
    Ok(())
}
