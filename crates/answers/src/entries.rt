// What an entry is, in words, with its value as a number.
ghost use Rattle.std.specs.Prelude.{◌≡◌, ◌++◌, ◌<◌, ◌≤◌, ◌^◌, ◌+◌, ◌-◌, ◌*◌};
ghost use Rattle.words.specs.Buffers.{put};
ghost use Rattle.answers.specs.EntryWords.{attribute_text, lines_text, direction_text, place_in_mapping, mapping_text, watch_text};
ghost use Rattle.answers.specs.EntryWords.{first_below_0, channel_number_text};
ghost use Rattle.answers.specs.EntryWords.{value_text, named_text, channel_text, constant_text, source_channels_text, sources_text};
ghost use Rattle.answers.specs.EntryWords.{entry_text};

use crate::tables::{attribute, name};
use dictionary::entries::find;
use profile::Home;
use texts::text::{put_complement, put_decimal, put_places};
use words::buffers::Buffer;

// Which entry an index and a sub-index name, with a value of it.
#[tactic(auto, using(words::proofs::BufferLaws::puts), unfolding(crate::specs::EntryWords::entry_text))]
pub fn put_entry<B: Buffer<u8>>(out: &mut B, index: u16, sub: u8, value: u32)
    ensures { B.held out.new ≡ put B.most (B.held out.old) (entry_text index sub value) }
{
    let Ok(entry) = find(index, sub) else {
        return put_constant(out, index, value);
    };
    match entry.home {
        Home::Constant(_) => put_constant(out, index, value),
        Home::Window(row, width, place) => put_window(out, row, width, place),
        Home::InputChannel(_, n) => put_channel(out, index, n, value),
        Home::OutputChannel(_, n) => put_channel(out, index, n, value),
        Home::Sources => put_sources(out, (value % 65_536) as u16),
        Home::Device(_) => put_named(out, index, value),
        Home::MappingEntry(mapping, place) => put_mapping(out, mapping, place),
        Home::WatchEntry(n) => put_watch(out, n + 1),
    }
}

// Where an entry's numbers below 0 begin, or past all of them.
#[tactic(auto, unfolding(crate::specs::EntryWords::first_below_0))]
fn first_below_0(index: u16) -> u64
    ensures { (result ≡ first_below_0 index) × (result ≤ 2 ^ 32) }
{
    match index {
        0x6401 | 0x6411 => 0x8000,
        0x6424 | 0x6425 | 0x6444 => 0x8000_0000,
        _ => 0x1_0000_0000,
    }
}

#[tactic(auto, using(words::proofs::BufferLaws::puts), unfolding(crate::specs::EntryWords::value_text))]
fn put_value<B: Buffer<u8>>(out: &mut B, index: u16, value: u32)
    ensures { B.held out.new ≡ put B.most (B.held out.old) (value_text index value) }
{
    out.put_all(b", ");
    put_complement(out, value, first_below_0(index));
}

#[tactic(auto, using(words::proofs::BufferLaws::puts), unfolding(crate::specs::EntryWords::named_text))]
fn put_named<B: Buffer<u8>>(out: &mut B, index: u16, value: u32)
    ensures { B.held out.new ≡ put B.most (B.held out.old) (named_text index value) }
{
    out.put_all(name(index));
    put_value(out, index, value);
}

// Channels are counted from 0.
#[tactic(auto, using(words::proofs::BufferLaws::puts), unfolding(crate::specs::EntryWords::channel_text))]
fn put_channel<B: Buffer<u8>>(out: &mut B, index: u16, n: usize, value: u32)
    requires { n < 16 }
    ensures { B.held out.new ≡ put B.most (B.held out.old) (channel_text index n value) }
{
    out.put_all(name(index));
    put_channel_number(out, n);
    put_value(out, index, value);
}

fn put_channel_number<B: Buffer<u8>>(out: &mut B, n: usize)
    requires { n < 16 }
    ensures { B.held out.new ≡ put B.most (B.held out.old) (channel_number_text n) }
{
    out.put_all(b" of channel ");
    put_decimal(out, (n + 1) as u64);
}

// Digital lines.
#[tactic(auto, using(words::proofs::BufferLaws::puts, crate::proofs::AnswerLaws::lines_before))]
fn put_window<B: Buffer<u8>>(out: &mut B, row: usize, width: usize, place: usize)
    requires { (1 ≤ place) × (width * place ≤ 128) }
    ensures { B.held out.new ≡ put B.most (B.held out.old)
        (attribute_text row ++ lines_text (width * (place - 1) + 1) (width * place)) }
{
    out.put_all(attribute(row));
    put_lines(
        out,
        (width * (place - 1) + 1) as u64,
        (width * place) as u64,
    );
}

// The device type, or an entry count.
#[tactic(auto, using(words::proofs::BufferLaws::puts), unfolding(crate::specs::EntryWords::constant_text))]
fn put_constant<B: Buffer<u8>>(out: &mut B, index: u16, value: u32)
    ensures { B.held out.new ≡ put B.most (B.held out.old) (constant_text index value) }
{
    if index == 0x1000 {
        out.put_all(b"device type");
    } else {
        out.put_all(b"number of entries");
    }
    out.put_all(b", ");
    put_decimal(out, u64::from(value));
}

#[tactic(auto, using(words::proofs::BufferLaws::puts), unfolding(crate::specs::EntryWords::sources_text))]
fn put_sources<B: Buffer<u8>>(out: &mut B, bits: u16)
    ensures { B.held out.new ≡ put B.most (B.held out.old) (sources_text bits) }
{
    if bits == 0 {
        return out.put_all(b"event sources: none");
    }
    put_source_channels(out, bits);
}

fn put_source_channels<B: Buffer<u8>>(out: &mut B, bits: u16)
    ensures { B.held out.new ≡ put B.most (B.held out.old) (source_channels_text bits) }
{
    out.put_all(b"event sources: channels");
    put_places(out, bits);
}

#[tactic(auto, using(words::proofs::BufferLaws::puts), unfolding(crate::specs::EntryWords::mapping_text))]
fn put_mapping<B: Buffer<u8>>(out: &mut B, mapping: usize, place: usize)
    ensures { B.held out.new ≡ put B.most (B.held out.old) (mapping_text mapping place) }
{
    out.put_all(direction(mapping));
    out.put_all(b" mapping ");
    put_decimal(out, (mapping % 4 + 1) as u64);
    put_place_in_mapping(out, place);
}

#[tactic(auto, unfolding(crate::specs::EntryWords::direction_text))]
fn direction(mapping: usize) -> &'static [u8]
    ensures { result.now ≡ direction_text mapping }
{
    match mapping {
        0..4 => b"receive",
        _ => b"transmit",
    }
}

#[tactic(auto, using(words::proofs::BufferLaws::puts), unfolding(crate::specs::EntryWords::place_in_mapping))]
fn put_place_in_mapping<B: Buffer<u8>>(out: &mut B, place: usize)
    ensures { B.held out.new ≡ put B.most (B.held out.old) (place_in_mapping place) }
{
    if place == 0 {
        return out.put_all(b", count");
    }
    out.put_all(b", entry ");
    put_decimal(out, place as u64);
}

fn put_watch<B: Buffer<u8>>(out: &mut B, place: usize)
    ensures { B.held out.new ≡ put B.most (B.held out.old) (watch_text place) }
{
    out.put_all(b"watch, entry ");
    put_decimal(out, place as u64);
}

#[tactic(auto, using(words::proofs::BufferLaws::puts), unfolding(crate::specs::EntryWords::lines_text))]
fn put_lines<B: Buffer<u8>>(out: &mut B, from: u64, to: u64)
    ensures { B.held out.new ≡ put B.most (B.held out.old) (lines_text from to) }
{
    if from == to {
        out.put_all(b", line ");
        return put_decimal(out, from);
    }
    out.put_all(b", lines ");
    put_decimal(out, from);
    out.put_all(b" to ");
    put_decimal(out, to);
}
