// create, command, raise and clear, and heartbeat and elapsed, in place.
#![tactic(auto)]

ghost use Rattle.std.specs.Prelude.{◌≡◌};
ghost use Rattle.profile.specs.Numbers.{number_answered};
ghost use Rattle.profile.specs.Answers.{plain_answer};
ghost use Rattle.profile.specs.Calls.{Plain, Call, direct};
ghost use Rattle.profile.specs.Replies.{plain};
ghost use Rattle.store.specs.Promises.{FreshAs, Ensured, Entered};

use analogue_outputs::move_all;
use dictionary::refusals::{check_command, check_create};
use lines::machines::move_outputs;
use mappings::{empty_received, empty_transmitted};
use nodes::{cleared, in_fault, is_addressed, obeyed, raised};
use profile::commands::Command;
use profile::refusals::Refusal;
use profile::{Cause, Node};
use store::Store;

// A refused node number gives a device with node number 127.
pub fn create(store: &mut Store, number: u8) -> Result<(), Refusal>
    ensures { FreshAs number (number_answered result) store.new }
{
    let answer = check_create(number);
    store.set_fresh(if answer.is_ok() { number } else { 127 });
    answer
}

pub fn command(store: &mut Store, code: u8, to: u8) -> Result<(), Refusal>
    ensures { Ensured store.old (direct (Plain.command code to)) (plain_answer result) store.new }
{
    let command = check_command(code, to)?;
    let was = store.node();
    if !is_addressed(was, to) {
        return Ok(());
    }
    let new = obeyed(was, code);
    match command {
        Command::ResetNode => store.set_fresh(was.number),
        Command::ResetCommunication => {
            // The mappings and the watch are emptied in parts, with other stores between: one fill of more than 256 bytes would call memset.
            empty_received(&mut store.deltas);
            enter(store, new);
            empty_transmitted(&mut store.deltas);
            watches::empty(&mut store.deltas);
        }
        _ => enter(store, new),
    }
    Ok(())
}

pub fn raise(store: &mut Store, cause: Cause)
    ensures call { Ensured store.old (direct (Plain.raise cause)) (plain 0) store.new }
    ensures kept { (store.new.limits ≡ store.old.limits) × (store.new.deltas ≡ store.old.deltas) }
{
    let new = raised(store.node(), cause);
    enter(store, new);
}

pub fn clear(store: &mut Store, cause: Cause)
    ensures call { Ensured store.old (direct (Plain.clear cause)) (plain 0) store.new }
    ensures kept { (store.new.limits ≡ store.old.limits) × (store.new.deltas ≡ store.old.deltas) }
{
    let new = cleared(store.node(), cause);
    enter(store, new);
}

pub fn heartbeat(store: &mut Store, node: u8)
    ensures { Ensured store.old (direct (Plain.heartbeat node)) (plain 0) store.new }
{
    watches::heartbeat(&mut store.deltas, node);
}

// An entry of the watch that reaches its time raises communication loss.
pub fn elapsed(store: &mut Store, milliseconds: u32)
    ensures { Ensured store.old (Call.elapsed milliseconds) (plain 0) store.new }
{
    if watches::pass(&mut store.deltas, milliseconds) {
        raise(store, Cause::Lost);
    }
}

// The node is stored, and where fault begins or ends every output moves.
#[tactic(auto, using(lines::proofs::OutputLaws::unmoved, analogue_outputs::proofs::StoreLaws::unmoved))]
fn enter(store: &mut Store, new: Node)
    ensures { Entered new store.old store.new }
{
    let before = in_fault(store.node());
    let after = in_fault(new);
    store.set_node(new);
    if before != after {
        move_outputs(&mut store.words, before, after);
        move_all(&store.flags, &mut store.values, before, after);
    }
}
