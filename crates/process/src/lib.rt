// sample and drive, in place.
#![tactic(auto)]

ghost use Rattle.std.specs.Prelude.{◌≡◌};
ghost use Rattle.profile.specs.Answers.{sample_answer, drive_answer};
ghost use Rattle.profile.specs.Calls.{Plain, direct};
ghost use Rattle.store.specs.View.{with_sampled};
ghost use Rattle.store.specs.Promises.{Ensured};
ghost use Rattle.process.specs.Promises.{Reported};

use analogue_inputs::sample_all;
use dictionary::refusals::{check_drive, check_sample};
use lines::machines;
use nodes::is_operational;
use profile::refusals::Refusal;
use store::Store;
use windows::Row;

// The analogue events, bit n - 1 for channel n; the digital ones go to the buffer.
#[tactic(auto, unfolding(profile::specs::Refusals::sample_refusal))]
pub fn sample(
    store: &mut Store,
    digital: &[u8],
    analogue: &[i16],
    events: &mut [u8],
) -> Result<u16, Refusal>
    ensures call { Ensured store.old (direct (Plain.sample digital.now analogue.now events.old))
        (sample_answer result events.new) store.new }
    ensures kept { store.new ≡ with_sampled store.new.octets store.new.words store.new.values store.old }
{
    check_sample(digital.len(), analogue.len(), events.len())?;
    // Their lengths were tested.
    let digital = digital.as_array().unwrap();
    let analogue = analogue.as_array().unwrap();
    let events = events.as_mut_array().unwrap();
    let node = store.node();
    let operational = is_operational(node);
    let edges = machines::sample(&mut store.words, Row::load(digital), node.length);
    reported(edges, operational & node.digital).store(events);
    let on = operational & node.analogue;
    Ok(sample_all(
        &mut store.octets,
        &store.limits,
        &store.deltas,
        &mut store.values,
        analogue,
        on,
    ))
}

#[tactic(auto, unfolding(profile::specs::Refusals::drive_refusal))]
pub fn drive(store: &Store, lines: &mut [u8], channels: &mut [i16]) -> Result<(), Refusal>
    ensures { Ensured store.now (direct (Plain.drive lines.old channels.old)) (drive_answer result lines.new channels.new) store.now }
{
    check_drive(lines.len(), channels.len())?;
    // Their lengths were tested.
    let lines = lines.as_mut_array().unwrap();
    let channels = channels.as_mut_array().unwrap();
    machines::drive(&store.words, lines);
    analogue_outputs::drive(&store.values, channels);
    Ok(())
}

// Edges are events while the node is operational and 6005 is 1.
#[tactic(auto, using(store::proofs::MachineLaws::zero_row))]
fn reported(edges: Row, on: bool) -> Row
    ensures { Reported on edges result }
{
    if on { edges } else { Row::NONE }
}
