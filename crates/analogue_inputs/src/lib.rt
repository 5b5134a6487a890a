// The sixteen analogue inputs, in arrays that the caller lends.
#![tactic(auto)]

ghost use Rattle.std.specs.Prelude.{◌≡◌, ◌^◌, ◌<◌, length};
ghost use Rattle.profile.specs.Bits.{bit_at, gather};
ghost use Rattle.profile.specs.AnalogueInput.{input_size};
ghost use Rattle.profile.specs.AnalogueInput.{meets, read_analogue_input, write_analogue_input};
ghost use Rattle.analogue_inputs.specs.Promises.{meets_limit, meets_delta, still, Sampled, NumbersTaken, InputsSampled, SourcesStored};
ghost use Rattle.analogue_inputs.specs.Promises.{InputStored};
ghost use Rattle.channels.specs.View.{input_at, sources_of};

use channels::fields::{
    Deltas, Limits, Octets, Values, input_at, set_sample, set_settings, set_sources, sources_at,
};
use profile::AnalogueInput;

#[derive(Clone, Copy)]
pub struct SampledChannel {
    pub channel: AnalogueInput,
    pub event: bool,
}

// Whether a sample is past a limit that 6421 selects.
#[tactic(auto, unfolding(crate::specs::Promises::meets_limit, profile::specs::Bits::bit_at))]
fn meets_limit(channel: AnalogueInput, x: i16) -> bool
    ensures { result ≡ meets_limit x channel }
{
    let selection = channel.selection;
    let upper = channel.upper < i32::from(x);
    let lower = i32::from(x) < channel.lower;
    ((selection % 2 == 1) & upper) | ((selection / 2 % 2 == 1) & lower)
}

// Whether a sample is farther from the reference than a delta that 6421 selects.
#[tactic(auto, using(crate::proofs::MeetsLaws::fall_is, crate::proofs::MeetsLaws::rise_is))]
fn meets_delta(channel: AnalogueInput, x: i16) -> bool
    ensures { result ≡ meets_delta x channel }
{
    let selection = channel.selection;
    let distance = u32::from(x.abs_diff(channel.reference));
    let delta = (selection / 4 % 2 == 1) & (channel.delta < distance);
    if x < channel.reference {
        return delta | ((selection / 8 % 2 == 1) & (channel.negative < distance));
    }
    delta | ((selection / 16 % 2 == 1) & (channel.positive < distance))
}

// Whether a sample meets a condition that 6421 selects.
#[tactic(auto, using(std::proofs::lemmas::Int::ints, crate::proofs::MeetsLaws::meets_coded))]
pub fn meets_selected(channel: AnalogueInput, x: i16) -> bool
    ensures { result ≡ meets x channel }
{
    ((x != channel.last) & meets_limit(channel, x)) || meets_delta(channel, x)
}

// A sample that equals the last one and the reference meets nothing and leaves the channel.
fn is_still(channel: AnalogueInput, x: i16) -> bool
    ensures { result ≡ still x channel }
{
    (x == channel.last) & (x == channel.reference)
}

// Events are on while the node is operational and 6423 is 1.
#[tactic(auto, using(std::proofs::lemmas::Int::ints), unfolding(profile::specs::AnalogueInput::sample_channel))]
pub fn sampled(channel: AnalogueInput, x: i16, on: bool) -> SampledChannel
    ensures { Sampled on x channel result.event result.channel }
{
    let event = on & meets_selected(channel, x);
    let mut next = channel;
    next.last = x;
    if event {
        next.reference = x;
        next.source = true;
    }
    SampledChannel {
        event,
        channel: next,
    }
}

// Every channel takes its number. The events, bit n - 1 for channel n.
fn take_numbers(
    octets: &Octets,
    limits: &Limits,
    deltas: &Deltas,
    values: &mut Values,
    xs: &[i16; 16],
    on: bool,
) -> u32
    ensures { NumbersTaken on xs.now
        (input_at octets.now limits.now deltas.now values.old) result
        (input_at octets.now limits.now deltas.now values.new)
        values.old values.new }
{
    let mut events: u32 = 0;
    // Downward: fewer instructions for each channel that is still.
    for i in (0..16).rev() {
        let x = xs[i];
        if !is_still(input_at(octets, limits, deltas, values, i), x) {
            // Read again, which is fewer instructions than a channel that is kept.
            let result = sampled(input_at(octets, limits, deltas, values, i), x, on);
            set_sample(values, i, result.channel);
            events |= u32::from(result.event) << i;
        }
    }
    events
}

// The same, and the source bit of each event becomes 1.
#[tactic(auto, using(crate::proofs::SourceLaws::for_sample))]
pub fn sample_all(
    octets: &mut Octets,
    limits: &Limits,
    deltas: &Deltas,
    values: &mut Values,
    xs: &[i16; 16],
    on: bool,
) -> u16
    ensures { InputsSampled on xs.now result
        (input_at octets.old limits.now deltas.now values.old)
        (input_at octets.new limits.now deltas.now values.new)
        octets.old octets.new values.old values.new }
{
    let events = take_numbers(octets, limits, deltas, values, xs, on);
    let sources = sources_at(octets);
    set_sources(octets, events | sources);
    events as u16
}

// The source bits that a read of 6422:1 answers, bit n - 1 for channel n.
pub fn read_sources(octets: &Octets) -> u32
    ensures { result ≡ gather 16 (bit_at (sources_of octets.now)) }
{
    sources_at(octets)
}

// Every source bit becomes 0.
pub fn clear_sources(octets: &mut Octets)
    ensures { SourcesStored 0 octets.old octets.new }
{
    set_sources(octets, 0);
}

// The value that an index has for a channel, as an unsigned number.
#[tactic(auto, unfolding(profile::specs::AnalogueInput::read_analogue_input))]
pub fn read_input(channel: AnalogueInput, index: u16) -> u32
    ensures { result ≡ read_analogue_input index channel }
{
    match index {
        0x6401 => u32::from(channel.last.cast_unsigned()),
        0x6421 => u32::from(channel.selection),
        0x6424 => channel.upper.cast_unsigned(),
        0x6425 => channel.lower.cast_unsigned(),
        0x6426 => channel.delta,
        0x6427 => channel.negative,
        _ => channel.positive,
    }
}

// A value of as many bytes as the index has.
#[tactic(auto, unfolding(profile::specs::AnalogueInput::write_analogue_input))]
pub fn write_input(channel: AnalogueInput, index: u16, value: u32) -> AnalogueInput
    requires { value < 256 ^ input_size index }
    ensures { result ≡ write_analogue_input index value channel }
{
    match index {
        0x6421 => AnalogueInput {
            selection: value as u8,
            ..channel
        },
        0x6424 => AnalogueInput {
            upper: value.cast_signed(),
            ..channel
        },
        0x6425 => AnalogueInput {
            lower: value.cast_signed(),
            ..channel
        },
        0x6426 => AnalogueInput {
            delta: value,
            ..channel
        },
        0x6427 => AnalogueInput {
            negative: value,
            ..channel
        },
        0x6428 => AnalogueInput {
            positive: value,
            ..channel
        },
        _ => channel,
    }
}

// A value is written to one channel.
pub fn write_at(
    octets: &mut Octets,
    limits: &mut Limits,
    deltas: &mut Deltas,
    values: &Values,
    n: usize,
    index: u16,
    value: u32,
)
    requires { (n < 16) × (value < 256 ^ input_size index) }
    ensures { InputStored index n value
        (input_at octets.old limits.old deltas.old values.now)
        (input_at octets.new limits.new deltas.new values.now)
        octets.old octets.new deltas.old deltas.new }
{
    let channel = input_at(octets, limits, deltas, values, n);
    let next = write_input(channel, index, value);
    set_settings(octets, limits, deltas, n, next);
}
