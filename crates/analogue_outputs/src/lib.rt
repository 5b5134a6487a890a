// The eight analogue outputs, in arrays that the caller lends.
#![tactic(auto)]

ghost use Rattle.std.specs.Prelude.{◌≡◌, ◌<◌, length};
ghost use Rattle.profile.specs.AnalogueOutput.{move_analogue_output, read_analogue_output, write_analogue_output};
ghost use Rattle.analogue_outputs.specs.Writable.{Writable};
ghost use Rattle.analogue_outputs.specs.Promises.{OutputStored, OutputsMoved, Driven};
ghost use Rattle.channels.specs.View.{output_at, driven_of};

use channels::fields::{DRIVEN, Flags, Values, output_at, set_driven, set_output};
use profile::AnalogueOutput;

// When fault begins, the output drives the error value if error mode is 1; when fault ends, it follows the kept value.
#[tactic(auto, unfolding(profile::specs::AnalogueOutput::move_analogue_output))]
pub fn moved(output: AnalogueOutput, before: bool, after: bool) -> AnalogueOutput
    ensures { result ≡ move_analogue_output before after output }
{
    match (before, after) {
        (true, false) => AnalogueOutput {
            driven: output.kept,
            ..output
        },
        (false, true) if output.mode => AnalogueOutput {
            driven: output.error,
            ..output
        },
        _ => output,
    }
}

// Every output moves where fault begins or ends.
#[tactic(auto, unfolding(profile::specs::AnalogueOutput::move_analogue_output))]
pub fn move_all(flags: &Flags, values: &mut Values, before: bool, after: bool)
    ensures { OutputsMoved before after
        (output_at flags.now values.old) (output_at flags.now values.new)
        values.old values.new }
{
    for i in 0..8 {
        let next = moved(output_at(flags, values, i), before, after);
        set_driven(values, i, next.driven);
    }
}

// The value that an index has for a channel, as an unsigned number.
#[tactic(auto, unfolding(profile::specs::AnalogueOutput::read_analogue_output))]
pub fn read_output(output: AnalogueOutput, index: u16) -> u32
    ensures { result ≡ read_analogue_output index output }
{
    match index {
        0x6411 => u32::from(output.kept.cast_unsigned()),
        0x6443 => u32::from(output.mode),
        _ => i32::from(output.error).cast_unsigned(),
    }
}

// Outside fault the output drives what is written to 6411.
#[tactic(auto, unfolding(profile::specs::AnalogueOutput::write_analogue_output))]
pub fn write_output(output: AnalogueOutput, index: u16, value: u32, fault: bool) -> AnalogueOutput
    requires { Writable index value }
    ensures { result ≡ write_analogue_output fault index value output }
{
    match index {
        0x6411 => {
            let kept = (value as u16).cast_signed();
            let driven = if fault { output.driven } else { kept };
            AnalogueOutput {
                kept,
                driven,
                ..output
            }
        }
        0x6443 => AnalogueOutput {
            mode: value == 1,
            ..output
        },
        0x6444 => AnalogueOutput {
            error: value.cast_signed() as i16,
            ..output
        },
        _ => output,
    }
}

// A value is written to one channel.
pub fn write_at(
    flags: &mut Flags,
    values: &mut Values,
    n: usize,
    index: u16,
    value: u32,
    fault: bool,
)
    requires { (n < 8) × Writable index value }
    ensures { OutputStored fault index n value
        (output_at flags.old values.old) (output_at flags.new values.new)
        flags.old flags.new values.old values.new }
{
    let output = output_at(flags, values, n);
    let next = write_output(output, index, value, fault);
    set_output(flags, values, n, next);
}

// The driven numbers.
#[tactic(auto, using(crate::proofs::DriveLaws::all_copied))]
pub fn drive(values: &Values, out: &mut [i16; 8])
    ensures { Driven (driven_of values.now) out.new }
{
    out.copy_from_slice(&values[DRIVEN..]);
}
