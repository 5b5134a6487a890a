// The thirteen calls in place, for C.
ghost use Rattle.std.specs.Prelude.{◌≡◌};
ghost use Rattle.profile.specs.Calls.{Plain, Call, direct};
ghost use Rattle.profile.specs.Replies.{plain};
ghost use Rattle.store.specs.View.{with_octets, with_sampled};
ghost use Rattle.store.specs.Promises.{FreshAs, Ensured};
ghost use Rattle.io401.specs.Answers.{read_number, sample_number, drive_number, count_number};
ghost use Rattle.io401.specs.Causes.{cause_of};
ghost use Rattle.io401.specs.Which.{message_of};

use crate::answers::{CountNumber, ReadNumber, SampleNumber, number_of};
use crate::causes::cause_of;
use crate::which::message_of;
use messages::received::receive;
use messages::transmitted::transmit;
use network::{clear, command, create, elapsed, heartbeat, raise};
use objects::{read, write};
use process::{drive, sample};
use server::request;
use store::Store;

// A refused node number gives a device with node number 127.
#[unsafe(no_mangle)]
pub extern "C" fn io401_create_arrays(store: &mut Store, number: u8) -> u32
    ensures { FreshAs number result store.new }
{
    number_of(create(store, number))
}

#[unsafe(no_mangle)]
pub extern "C" fn io401_read_arrays(store: &mut Store, index: u16, sub: u8) -> ReadNumber
    ensures call { Ensured store.old (direct (Plain.read index sub)) (read_number result) store.new }
    ensures kept { store.new ≡ with_octets store.new.octets store.old }
{
    ReadNumber::from(read(store, index, sub))
}

#[unsafe(no_mangle)]
pub extern "C" fn io401_write_arrays(store: &mut Store, index: u16, sub: u8, bytes: &[u8]) -> u32
    ensures { Ensured store.old (direct (Plain.write index sub bytes.now)) (plain result) store.new }
{
    number_of(write(store, index, sub, bytes))
}

#[unsafe(no_mangle)]
pub extern "C" fn io401_sample_arrays(
    store: &mut Store,
    digital: &[u8],
    analogue: &[i16],
    events: &mut [u8],
) -> SampleNumber
    ensures call { Ensured store.old
        (direct (Plain.sample digital.now analogue.now events.old)) (sample_number result events.new) store.new }
    ensures kept { store.new ≡ with_sampled store.new.octets store.new.words store.new.values store.old }
{
    SampleNumber::from(sample(store, digital, analogue, events))
}

#[unsafe(no_mangle)]
pub extern "C" fn io401_command_arrays(store: &mut Store, code: u8, node: u8) -> u32
    ensures { Ensured store.old (direct (Plain.command code node)) (plain result) store.new }
{
    number_of(command(store, code, node))
}

// The cause is communication loss where loss is true, else internal failure.

#[unsafe(no_mangle)]
pub extern "C" fn io401_raise_arrays(store: &mut Store, loss: bool) -> u32
    ensures call { Ensured store.old (direct (Plain.raise (cause_of loss))) (plain result) store.new }
    ensures kept { (store.new.limits ≡ store.old.limits) × (store.new.deltas ≡ store.old.deltas) }
{
    raise(store, cause_of(loss));
    0
}

// The cause is communication loss where loss is true, else internal failure.

#[unsafe(no_mangle)]
pub extern "C" fn io401_clear_arrays(store: &mut Store, loss: bool) -> u32
    ensures call { Ensured store.old (direct (Plain.clear (cause_of loss))) (plain result) store.new }
    ensures kept { (store.new.limits ≡ store.old.limits) × (store.new.deltas ≡ store.old.deltas) }
{
    clear(store, cause_of(loss));
    0
}

#[unsafe(no_mangle)]
pub extern "C" fn io401_drive_arrays(store: &Store, lines: &mut [u8], channels: &mut [i16]) -> u32
    ensures { Ensured store.now
        (direct (Plain.drive lines.old channels.old)) (drive_number result lines.new channels.new) store.now }
{
    number_of(drive(store, lines, channels))
}

// The message is the third or the fourth where second_pair is true, and the second or the fourth where second is.

#[unsafe(no_mangle)]
pub extern "C" fn io401_receive_arrays(
    store: &mut Store,
    second_pair: bool,
    second: bool,
    frame: &[u8],
) -> u32
    ensures { Ensured store.old
        (Call.receive (message_of second_pair second) frame.now) (plain result) store.new }
{
    receive(store, message_of(second_pair, second), frame);
    0
}

// The message is named as in io401_receive_arrays.

#[unsafe(no_mangle)]
pub extern "C" fn io401_transmit_arrays(
    store: &Store,
    second_pair: bool,
    second: bool,
    frame: &mut [u8],
) -> CountNumber
    ensures { Ensured store.now
        (Call.transmit (message_of second_pair second) frame.old) (count_number result frame.new) store.now }
{
    CountNumber::from(transmit(store, message_of(second_pair, second), frame))
}

#[unsafe(no_mangle)]
pub extern "C" fn io401_request_arrays(
    store: &mut Store,
    frame: &[u8],
    reply: &mut [u8],
) -> CountNumber
    ensures { Ensured store.old
        (Call.request frame.now reply.old) (count_number result reply.new) store.new }
{
    CountNumber::from(request(store, frame, reply))
}

#[unsafe(no_mangle)]
pub extern "C" fn io401_heartbeat_arrays(store: &mut Store, node: u8) -> u32
    ensures { Ensured store.old (direct (Plain.heartbeat node)) (plain result) store.new }
{
    heartbeat(store, node);
    0
}

#[unsafe(no_mangle)]
pub extern "C" fn io401_elapsed_arrays(store: &mut Store, milliseconds: u32) -> u32
    ensures { Ensured store.old (Call.elapsed milliseconds) (plain result) store.new }
{
    elapsed(store, milliseconds);
    0
}
