// Where each field of a channel stands in the lent arrays: element n of its column for channel n, from 0.
ghost use Rattle.std.specs.Prelude.{◌≡◌, ◌+◌, ◌≤◌, ◌<◌, get_or, set, pos};
ghost use Rattle.profile.specs.Bits.{bit_at};
ghost use Rattle.channels.specs.View.{input_at, output_at, sources_of, limits_set, deltas_set, selection_set};
ghost use Rattle.channels.specs.View.{samples_set, sources_set, output_set, mode_set, modes_set, Zeroed};

use profile::{AnalogueInput, AnalogueOutput};

// How many elements each array that the device lends has; the mappings and the watch stand at the end of deltas.
pub const OCTETS: usize = 22;

pub const FLAGS: usize = 12;

pub const LIMITS: usize = 32;

pub const DELTAS: usize = 128;

pub const VALUES: usize = 56;

// The arrays that the device lends, one for each type of element: the C interface, struct io401_device, fixes them.
pub type Octets = [u8; OCTETS];

pub type Flags = [bool; FLAGS];

pub type Limits = [i32; LIMITS];

pub type Deltas = [u32; DELTAS];

pub type Values = [i16; VALUES];

// In limits, after upper.
const LOWER: usize = 16;

// In deltas, after delta.
const NEGATIVE: usize = 16;

const POSITIVE: usize = 32;

// In values, after last.
const REFERENCE: usize = 16;

const ERROR: usize = 32;

const KEPT: usize = 40;

pub const DRIVEN: usize = 48;

// In octets, after the node's.
const SELECTION: usize = 3;

// The two bytes of the source bits.
const SOURCES_LOW: usize = 19;

const SOURCES_HIGH: usize = 20;

// In flags, after the node's.
const MODE: usize = 4;

pub fn input_at(
    octets: &Octets,
    limits: &Limits,
    deltas: &Deltas,
    values: &Values,
    n: usize,
) -> AnalogueInput
    requires { n < 16 }
    ensures { result ≡ input_at octets.now limits.now deltas.now values.now n }
{
    AnalogueInput {
        upper: limits[n],
        lower: limits[LOWER + n],
        delta: deltas[n],
        negative: deltas[NEGATIVE + n],
        positive: deltas[POSITIVE + n],
        last: values[n],
        reference: values[REFERENCE + n],
        selection: octets[SELECTION + n],
        source: source_at(octets, n),
    }
}

// What a write can change of an input.
pub fn set_settings(
    octets: &mut Octets,
    limits: &mut Limits,
    deltas: &mut Deltas,
    n: usize,
    new: AnalogueInput,
)
    requires { n < 16 }
    ensures { (octets.new ≡ selection_set octets.old n new)
        × (limits.new ≡ limits_set limits.old n new)
        × (deltas.new ≡ deltas_set deltas.old n new) }
{
    octets[SELECTION + n] = new.selection;
    limits[n] = new.upper;
    limits[LOWER + n] = new.lower;
    deltas[n] = new.delta;
    deltas[NEGATIVE + n] = new.negative;
    deltas[POSITIVE + n] = new.positive;
}

// What a sample can change of an input, but for its source bit.
pub fn set_sample(values: &mut Values, n: usize, new: AnalogueInput)
    requires { n < 16 }
    ensures { values.new ≡ samples_set values.old n new }
{
    values[n] = new.last;
    values[REFERENCE + n] = new.reference;
}

// y, the number last sampled.
pub fn last_at(values: &Values, n: usize) -> i16
    requires { n < 16 }
    ensures { result ≡ get_or values.now n (pos 0) }
{
    values[n]
}

// The elements from one on and before another become 0.
pub fn zero_deltas(deltas: &mut Deltas, from: usize, to: usize)
    requires { (from ≤ to) × (to ≤ 128) }
    ensures { Zeroed from to deltas.old deltas.new }
{
    deltas[from..to].fill(0);
}

// The source bit of one channel.
#[tactic(auto, unfolding(profile::specs::Bits::bit_at))]
fn source_at(octets: &Octets, n: usize) -> bool
    requires { n < 16 }
    ensures { result ≡ bit_at (sources_of octets.now) n }
{
    let sources = sources_at(octets);
    (sources >> n) % 2 == 1
}

// The source bits of all channels, bit n for channel n.
pub fn sources_at(octets: &Octets) -> u32
    ensures { (result ≡ sources_of octets.now) × (result < 65536) }
{
    u32::from(u16::from_le_bytes([octets[SOURCES_LOW], octets[SOURCES_HIGH]]))
}

pub fn set_sources(octets: &mut Octets, sources: u32)
    requires { sources < 65536 }
    ensures { octets.new ≡ sources_set octets.old sources }
{
    [octets[SOURCES_LOW], octets[SOURCES_HIGH]] = (sources as u16).to_le_bytes();
}

pub fn output_at(flags: &Flags, values: &Values, n: usize) -> AnalogueOutput
    requires { n < 8 }
    ensures { result ≡ output_at flags.now values.now n }
{
    AnalogueOutput {
        mode: flags[MODE + n],
        error: values[ERROR + n],
        kept: values[KEPT + n],
        driven: values[DRIVEN + n],
    }
}

pub fn set_output(flags: &mut Flags, values: &mut Values, n: usize, new: AnalogueOutput)
    requires { n < 8 }
    ensures { (flags.new ≡ mode_set flags.old n new) ×
        (values.new ≡ output_set values.old n new) }
{
    flags[MODE + n] = new.mode;
    values[ERROR + n] = new.error;
    values[KEPT + n] = new.kept;
    values[DRIVEN + n] = new.driven;
}

pub fn set_driven(values: &mut Values, n: usize, driven: i16)
    requires { n < 8 }
    ensures { values.new ≡ set values.old (48 + n) driven }
{
    values[DRIVEN + n] = driven;
}

// Every error mode becomes 1.
pub fn set_modes(flags: &mut Flags)
    ensures { flags.new ≡ modes_set flags.old }
{
    flags[MODE..].fill(true);
}
