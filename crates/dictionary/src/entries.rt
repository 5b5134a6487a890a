// The object dictionary of documents 01 and 02: which entry an index and a sub-index name.
ghost use Rattle.std.specs.Prelude.{◌≡◌, ◌<◌};
ghost use Rattle.dictionary.specs.Lookup.{place_word, IsPlace, OfColumn};
ghost use Rattle.profile.specs.Entries.{width_of, at, object, reading, setting, short, window};
ghost use Rattle.profile.specs.Entries.{mapping_object, mapping_objects, lookup, object_of, entry_of};
ghost use Rattle.profile.specs.Answers.{found};

use profile::refusals::Refusal;
use profile::{Entry, Home};

// The indices of 1, 8, 16 and 32 bits, a row for each attribute of digital lines.
const INDICES: [[u16; 4]; 11] = [
    [0x6020, 0x6000, 0x6100, 0x6120], // input
    [0x6030, 0x6002, 0x6102, 0x6122], // input polarity
    [0x6038, 0x6003, 0x6103, 0x6123], // input filter
    [0x6050, 0x6006, 0x6106, 0x6126], // any change
    [0x6060, 0x6007, 0x6107, 0x6127], // low-to-high
    [0x6070, 0x6008, 0x6108, 0x6128], // high-to-low
    [0x6220, 0x6200, 0x6300, 0x6320], // output
    [0x6240, 0x6202, 0x6302, 0x6322], // output polarity
    [0x6250, 0x6206, 0x6306, 0x6326], // error mode
    [0x6260, 0x6207, 0x6307, 0x6327], // error value
    [0x6270, 0x6208, 0x6308, 0x6328], // output filter mask
];

// Eight places to a word, the lowest byte first: where an index stands if it stands in the table at all, by its key, 5 times the index
// plus its sixteenth, below 128.
// Words of a match and no array: an array is written out anew in each call.
fn places(n: usize) -> u64
    requires { n < 16 }
    ensures { result ≡ place_word n }
{
    match n {
        0 => 0x0024000000000001,
        1 => 0x0900000000050000,
        2 => 0x00000c0000000002,
        3 => 0x0a0d000008060000,
        4 => 0x0000000011000019,
        5 => 0x000e0000001d0015,
        6 => 0x140020001203001a,
        7 => 0x00210007001e0016,
        8 => 0x0000000025180b00,
        9 => 0x0022000000000029,
        10 => 0x28001300261b000f,
        11 => 0x0000001f0017002a,
        12 => 0x0010001c00000000,
        13 => 0x0000000000000000,
        14 => 0x0000270004000023,
        _ => 0x00000000002b0000,
    }
}

// The highest value of an entry that takes any.
const ANY: u32 = u32::MAX;

// And of an entry of 1016, whose bits 24 to 31 are 0.
const WATCHED: u32 = 0x00FF_FFFF;

#[inline(always)]
#[tactic(auto, unfolding(profile::specs::Entries::entry_of))]
pub fn find(index: u16, sub: u8) -> Result<Entry, Refusal>
    ensures { found result ≡ entry_of index sub }
{
    match place_of(index) {
        Some(place) => window(place >> 2, place & 3, sub),
        None => object(index, sub),
    }
}

// The place of an index in the table. All of its indices are from 6000 to 63FF: any other is not looked up.
#[inline(always)]
fn place_of(index: u16) -> Option<usize>
    ensures { IsPlace index result }
{
    match index {
        0x6000..=0x63FF => keyed_place(index),
        _ => None,
    }
}

// The same by the key.
#[inline(always)]
fn keyed_place(index: u16) -> Option<usize>
    ensures { IsPlace index result }
{
    let number = usize::from(index);
    let key = (5 * number + (number >> 4)) & 127;
    let word = places(key >> 3);
    let place = ((word >> (8 * (key & 7))) & 255) as usize;
    if index == INDICES[place >> 2][place & 3] {
        Some(place)
    } else {
        None
    }
}

// What an object has at a sub-index: nothing above its last; its entry count at 0, unless that is its last; else the entry.
#[inline(always)]
fn at(sub: u8, last: u8, entry: Entry) -> Result<Entry, Refusal>
    ensures { found result
        ≡ at sub (object last entry.size entry.fixed entry.short entry.lowest entry.highest entry.home) }
{
    if last < sub {
        Err(Refusal::NoSubIndex)
    } else if (sub == 0) & (last != 0) {
        Ok(Entry {
            size: 1,
            fixed: true,
            short: false,
            lowest: 0,
            highest: 0,
            home: Home::Constant(u32::from(last)),
        })
    } else {
        Ok(entry)
    }
}

// Read only.
#[inline(always)]
fn reading(sub: u8, last: u8, size: u8, home: Home) -> Result<Entry, Refusal>
    ensures { found result ≡ at sub (reading last size home) }
{
    let entry = Entry {
        size,
        fixed: true,
        short: false,
        lowest: 0,
        highest: 0,
        home,
    };
    at(sub, last, entry)
}

#[inline(always)]
fn setting(
    sub: u8,
    last: u8,
    size: u8,
    lowest: u32,
    highest: u32,
    home: Home,
) -> Result<Entry, Refusal>
    ensures { found result ≡ at sub (setting last size lowest highest home) }
{
    let entry = Entry {
        size,
        fixed: false,
        short: false,
        lowest,
        highest,
        home,
    };
    at(sub, last, entry)
}

// Four bytes for the numbers of 16 bits.
#[inline(always)]
fn short(sub: u8, last: u8, home: Home) -> Result<Entry, Refusal>
    ensures { found result ≡ at sub (short last home) }
{
    let entry = Entry {
        size: 4,
        fixed: false,
        short: true,
        lowest: 0,
        highest: ANY,
        home,
    };
    at(sub, last, entry)
}

// Of a column of the table of digital lines: the exponent of its width, and the highest value of an entry.
fn of_column(column: usize) -> (usize, u32)
    requires { column < 4 }
    ensures { OfColumn column result }
{
    match column {
        0 => (0, 1),
        1 => (3, ANY),
        2 => (4, ANY),
        _ => (5, ANY),
    }
}

// By the row and the column of that table, every width alike; a value has as many bytes as hold its lines.
#[inline(always)]
fn window(row: usize, column: usize, sub: u8) -> Result<Entry, Refusal>
    requires { column < 4 }
    ensures { found result ≡ at sub (window row (width_of column) sub) }
{
    let (exponent, highest) = of_column(column);
    let width = 1 << exponent;
    let entry = Entry {
        size: ((width + 7) >> 3) as u8,
        fixed: row == 0,
        short: false,
        lowest: 0,
        highest,
        home: Home::Window(row, width, usize::from(sub)),
    };
    at(sub, (128usize >> exponent) as u8, entry)
}

// A process data mapping: which of the eight. Its entry count is written.
#[inline(always)]
fn mapping(sub: u8, m: usize) -> Result<Entry, Refusal>
    ensures { found result ≡ at sub (mapping_object m sub) }
{
    let entry = Entry {
        size: if sub == 0 { 1 } else { 4 },
        fixed: false,
        short: false,
        lowest: 0,
        highest: ANY,
        home: Home::MappingEntry(m, usize::from(sub)),
    };
    if 8 < sub {
        Err(Refusal::NoSubIndex)
    } else {
        Ok(entry)
    }
}

// 1600 to 1603, and 1A00 to 1A03.
#[inline(always)]
fn mapping_object(index: u16, sub: u8) -> Result<Entry, Refusal>
    ensures { found result ≡ lookup sub (mapping_objects sub) index }
{
    match index {
        0x1600..=0x1603 => mapping(sub, usize::from(index) - 0x1600),
        0x1A00..=0x1A03 => mapping(sub, usize::from(index) - 0x1A00 + 4),
        _ => Err(Refusal::NoObject),
    }
}

// The objects outside the table of digital lines, by channel or entry from 0; sub-index 0, the entry count, names number 0 too.
#[inline(always)]
#[tactic(auto, unfolding(profile::specs::Entries::object_of))]
fn object(index: u16, sub: u8) -> Result<Entry, Refusal>
    ensures { found result ≡ object_of index sub }
{
    let n = usize::from(sub).saturating_sub(1);
    match index {
        0x1000 => reading(sub, 0, 4, Home::Constant(0x000F_0191)),
        0x1001 => reading(sub, 0, 1, Home::Device(index)),
        0x1016 => setting(sub, 4, 4, 0, WATCHED, Home::WatchEntry(n)),
        0x1029 => setting(sub, 1, 1, 0, 2, Home::Device(index)),
        0x2003 => setting(sub, 0, 1, 1, 255, Home::Device(index)),
        0x6005 => setting(sub, 0, 1, 0, 1, Home::Device(index)),
        0x6401 => reading(sub, 16, 2, Home::InputChannel(index, n)),
        0x6411 => setting(sub, 8, 2, 0, ANY, Home::OutputChannel(index, n)),
        0x6421 => setting(sub, 16, 1, 0, 31, Home::InputChannel(index, n)),
        0x6422 => reading(sub, 1, 4, Home::Sources),
        0x6423 => setting(sub, 0, 1, 0, 1, Home::Device(index)),
        0x6424 => setting(sub, 16, 4, 0, ANY, Home::InputChannel(index, n)),
        0x6425 => setting(sub, 16, 4, 0, ANY, Home::InputChannel(index, n)),
        0x6426 => setting(sub, 16, 4, 0, ANY, Home::InputChannel(index, n)),
        0x6427 => setting(sub, 16, 4, 0, ANY, Home::InputChannel(index, n)),
        0x6428 => setting(sub, 16, 4, 0, ANY, Home::InputChannel(index, n)),
        0x6443 => setting(sub, 8, 1, 0, 1, Home::OutputChannel(index, n)),
        0x6444 => short(sub, 8, Home::OutputChannel(index, n)),
        _ => mapping_object(index, sub),
    }
}
