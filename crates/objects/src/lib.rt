// read and write, in place.
#![tactic(auto)]

ghost use Rattle.std.specs.Prelude.{◌≡◌, ◌++◌};
ghost use Rattle.profile.specs.Numbers.{number_answered};
ghost use Rattle.profile.specs.Answers.{present, plain_answer, read_answer};
ghost use Rattle.profile.specs.Refusals.{first, value_checks};
ghost use Rattle.profile.specs.Calls.{Plain, direct};
ghost use Rattle.profile.specs.Replies.{read_value};
ghost use Rattle.store.specs.View.{parts_of, machines_of, with_octets};
ghost use Rattle.store.specs.Promises.{Ensured, Stepped, wrote, Readable, Writable, SourcesRead, held_by};

use analogue_inputs::{clear_sources, read_input, read_sources};
use analogue_outputs::read_output;
use channels::fields::{Deltas, Octets, input_at, output_at};
use channels::numbers::number;
use dictionary::entries::find;
use dictionary::refusals::{check_access, check_value};
use lines::machines;
use nodes::{in_fault, is_stopped, written};
use profile::refusals::Refusal;
use profile::{Entry, Home, ReadValue};
use store::Store;

pub fn read(store: &mut Store, index: u16, sub: u8) -> Result<ReadValue, Refusal>
    ensures call { Ensured store.old (direct (Plain.read index sub)) (read_answer result) store.new }
    ensures kept { store.new ≡ with_octets store.new.octets store.old }
{
    if is_stopped(store.node()) {
        return Err(Refusal::Stopped);
    }
    let entry = find(index, sub)?;
    let value = value_at(store, entry.home);
    take_sources(&mut store.octets, entry.home);
    Ok(ReadValue {
        value,
        size: usize::from(entry.size),
    })
}

// The value that a read of an entry answers.
#[tactic(auto, unfolding(profile::specs::Replies::read_value))]
pub fn value_at(store: &Store, home: Home) -> u32
    requires { Readable home }
    ensures { result ≡ read_value (machines_of store.now) home }
{
    match home {
        Home::Constant(value) => value,
        Home::Window(row, width, sub) => machines::read(&store.words, row, width, sub),
        Home::InputChannel(index, n) => {
            let channel = input_at(
                &store.octets,
                &store.limits,
                &store.deltas,
                &store.values,
                n,
            );
            read_input(channel, index)
        }
        Home::OutputChannel(index, n) => read_output(
            output_at(&store.flags, &store.values, n),
            index,
        ),
        Home::Sources => read_sources(&store.octets),
        Home::Device(index) => nodes::read(store.node(), index),
        Home::MappingEntry(m, sub) => mappings::read(&store.deltas, m, sub),
        Home::WatchEntry(n) => watches::read(&store.deltas, n),
    }
}

// A read of 6422:1 clears the source bits that it answers.
fn take_sources(octets: &mut Octets, home: Home)
    ensures { SourcesRead home octets.old octets.new }
{
    if let Home::Sources = home {
        clear_sources(octets);
    }
}

#[tactic(auto, using(crate::proofs::AccessLaws::for_write))]
pub fn write(store: &mut Store, index: u16, sub: u8, bytes: &[u8]) -> Result<(), Refusal>
    ensures { Ensured store.old (direct (Plain.write index sub bytes.now)) (plain_answer result) store.new }
{
    if is_stopped(store.node()) {
        return Err(Refusal::Stopped);
    }
    let entry = find(index, sub)?;
    check_access(entry, bytes.len())?;
    let value = number(bytes);
    check_written(&store.deltas, entry, value)?;
    after_write(store, entry.home, value);
    Ok(())
}

// A write's rows on its value: of any entry, then of a mapping or of the watch.
fn check_written(deltas: &Deltas, entry: Entry, value: u32) -> Result<(), Refusal>
    requires { Readable entry.home }
    ensures { number_answered result
        ≡ first (value_checks (present entry) value ++ held_by deltas.now entry.home value) }
{
    check_value(entry, value)?;
    match entry.home {
        Home::MappingEntry(m, sub) => mappings::check(deltas, m, sub, value),
        Home::WatchEntry(n) => watches::check(deltas, n, value),
        _ => Ok(()),
    }
}

// A write that is not refused, by where its entry lives.
#[tactic(auto, using(crate::proofs::AccessLaws::for_after_write))]
fn after_write(store: &mut Store, home: Home, value: u32)
    requires { Writable home value }
    ensures { Stepped store.old store.new (wrote home value (parts_of store.old)) }
{
    let was = store.node();
    match home {
        Home::Window(row, width, sub) => {
            machines::write(&mut store.words, row, width, sub, value, in_fault(was));
        }
        Home::InputChannel(index, n) => analogue_inputs::write_at(
            &mut store.octets,
            &mut store.limits,
            &mut store.deltas,
            &store.values,
            n,
            index,
            value,
        ),
        Home::OutputChannel(index, n) => analogue_outputs::write_at(
            &mut store.flags,
            &mut store.values,
            n,
            index,
            value,
            in_fault(was),
        ),
        Home::Device(index) => store.set_node(written(was, index, value)),
        Home::MappingEntry(m, sub) => mappings::write(&mut store.deltas, m, sub, value),
        Home::WatchEntry(n) => watches::write(&mut store.deltas, n, value),
        Home::Constant(_) | Home::Sources => {}
    }
}
