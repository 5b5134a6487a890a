// What the refusal of a read or a write means, with the size that was wanted or the last sub-index.
ghost use Rattle.std.specs.Prelude.{◌≡◌, cond, eqb};
ghost use Rattle.profile.specs.Entries.{entry_of};
ghost use Rattle.words.specs.Buffers.{put};
ghost use Rattle.answers.specs.Refusals.{last_of, size_text, wanted_text, access_refusal_text};

use crate::tables::meaning;
use dictionary::entries::find;
use profile::Home;
use texts::text::put_decimal;
use words::buffers::Buffer;

#[tactic(auto, using(words::proofs::BufferLaws::puts), unfolding(crate::specs::Refusals::access_refusal_text))]
pub fn put_access_refusal<B: Buffer<u8>>(out: &mut B, number: u32, index: u16, sub: u8)
    ensures { B.held out.new ≡ put B.most (B.held out.old) (access_refusal_text number index sub) }
{
    out.put_all(meaning(number));
    put_wanted(out, number, index, sub);
}

#[tactic(auto, using(words::proofs::BufferLaws::puts), unfolding(crate::specs::Refusals::wanted_text))]
fn put_wanted<B: Buffer<u8>>(out: &mut B, number: u32, index: u16, sub: u8)
    ensures { B.held out.new ≡ put B.most (B.held out.old) (wanted_text number index sub) }
{
    match number {
        0x0607_0012 | 0x0607_0013 => {
            out.put_all(b", ");
            put_size(out, size_of(index, sub));
            out.put_all(b" wanted");
        }
        0x0609_0011 => {
            out.put_all(b", the last is ");
            put_decimal(out, u64::from(last_of(index)));
        }
        _ => {}
    }
}

#[tactic(auto, using(words::proofs::BufferLaws::puts), unfolding(crate::specs::Refusals::size_text))]
fn put_size<B: Buffer<u8>>(out: &mut B, size: u8)
    ensures { B.held out.new ≡ put B.most (B.held out.old) (size_text size) }
{
    put_decimal(out, u64::from(size));
    if size == 1 {
        out.put_all(b" byte");
    } else {
        out.put_all(b" bytes");
    }
}

// In bytes; 0 where there is no entry.
fn size_of(index: u16, sub: u8) -> u8
    ensures { result ≡ (entry_of index sub).size }
{
    match find(index, sub) {
        Ok(entry) => entry.size,
        Err(_) => 0,
    }
}

// The last sub-index of an object, by what it has at 0: its entry count, the count of a mapping, or its only entry.
fn last_of(index: u16) -> u32
    ensures { result ≡ last_of index }
{
    let Ok(entry) = find(index, 0) else {
        return 0;
    };
    match entry.home {
        Home::Constant(count) => counted(entry.size, count),
        Home::MappingEntry(..) => 8,
        _ => 0,
    }
}

// An entry count has one byte, and 1000 four.
fn counted(size: u8, constant: u32) -> u32
    ensures { result ≡ cond (eqb size 1) constant 0 }
{
    if size == 1 { constant } else { 0 }
}
