// What an accepted write did less than its writer may think, in words.
ghost use Rattle.std.specs.Prelude.{◌≡◌, cond, [], ◌≤◌, ◌*◌};
ghost use Rattle.words.specs.Buffers.{put};
ghost use Rattle.words.specs.Ascii.{ascii};
ghost use Rattle.answers.specs.Remarks.{driven_later, masked, some_masked, output_remark, row_remark, window_remark, channel_remark};
ghost use Rattle.answers.specs.Remarks.{remark_text, written_text, value_in};

use crate::entries::put_entry;
use channels::numbers::number;
use dictionary::entries::find;
use profile::Home;
use texts::text::put_runs;
use words::buffers::Buffer;
use words::items::first_items;

// The device before a write: what a read of the output filter masks of the entry's lines answers, and whether it is in fault.
#[derive(Clone, Copy)]
pub struct Before {
    pub masks: u32,
    pub fault: bool,
}

// An entry that was written with a value, and what the write did less.
#[tactic(auto, using(words::proofs::BufferLaws::puts), unfolding(crate::specs::Remarks::written_text))]
pub fn put_written<B: Buffer<u8>>(out: &mut B, index: u16, sub: u8, value: u32, before: Before)
    ensures { B.held out.new ≡ put B.most (B.held out.old) (written_text index sub value before) }
{
    put_entry(out, index, sub, value);
    put_remark(out, index, sub, before);
}

// The number that data bytes hold for an entry.
#[tactic(auto, unfolding(crate::specs::Remarks::value_in))]
pub fn value_in(index: u16, sub: u8, payload: &[u8]) -> u32
    ensures { result ≡ value_in index sub payload.now }
{
    match find(index, sub) {
        Ok(entry) => number(first_items(payload, usize::from(entry.size))),
        Err(_) => 0,
    }
}

#[tactic(auto, using(words::proofs::BufferLaws::put_none), unfolding(crate::specs::Remarks::remark_text))]
fn put_remark<B: Buffer<u8>>(out: &mut B, index: u16, sub: u8, before: Before)
    ensures { B.held out.new ≡ put B.most (B.held out.old) (remark_text index sub before) }
{
    let Ok(entry) = find(index, sub) else {
        return;
    };
    match entry.home {
        Home::Window(row, width, place) => put_window_remark(out, row, width, place, before),
        Home::OutputChannel(at, _) => out.put_all(channel_remark(at, before.fault)),
        _ => {}
    }
}

// The row of the outputs is 6.
#[tactic(auto, unfolding(crate::specs::Remarks::window_remark))]
fn put_window_remark<B: Buffer<u8>>(
    out: &mut B,
    row: usize,
    width: usize,
    place: usize,
    before: Before,
)
    requires { (width ≤ 32) × (1 ≤ place) × (width * place ≤ 128) }
    ensures { B.held out.new ≡ put B.most (B.held out.old) (window_remark row width place before) }
{
    if row == 6 {
        return put_output_remark(out, width, place, before);
    }
    out.put_all(row_remark(row, before.fault));
}

// 7 is the output polarity, 8 and 9 are error mode and error value.
#[tactic(auto, unfolding(crate::specs::Remarks::row_remark))]
fn row_remark(row: usize, fault: bool) -> &'static [u8]
    ensures { result.now ≡ row_remark row fault }
{
    match (row, fault) {
        (7, true) => b": in fault, driven later",
        (8 | 9, true) => b": in fault, used at the next fault",
        _ => b"",
    }
}

// An analogue output's value, or its error mode or error value.
#[tactic(auto, unfolding(crate::specs::Remarks::channel_remark))]
fn channel_remark(index: u16, fault: bool) -> &'static [u8]
    ensures { result.now ≡ channel_remark index fault }
{
    match (index, fault) {
        (_, false) => b"",
        (0x6411, true) => b": in fault, driven later",
        (_, true) => b": in fault, used at the next fault",
    }
}

// No line is masked; all are; some are.
#[tactic(auto, unfolding(crate::specs::Remarks::output_remark))]
fn put_output_remark<B: Buffer<u8>>(out: &mut B, width: usize, place: usize, before: Before)
    requires { (width ≤ 32) × (1 ≤ place) × (width * place ≤ 128) }
    ensures { B.held out.new ≡ put B.most (B.held out.old) (output_remark width place before) }
{
    if masked(width, before.masks) == 0 {
        return out.put_all(driven_later(before.fault));
    }
    if before.masks == 0 {
        return out.put_all(b": masked, not written");
    }
    put_some_masked(out, width, place, before);
}

fn driven_later(fault: bool) -> &'static [u8]
    ensures { result.now ≡ cond fault driven_later [] }
{
    if fault {
        b": in fault, driven later"
    } else {
        b""
    }
}

// Which lines are masked, and that the others are driven later.
#[tactic(auto, using(crate::proofs::AnswerLaws::lines_before))]
fn put_some_masked<B: Buffer<u8>>(out: &mut B, width: usize, place: usize, before: Before)
    requires { (width ≤ 32) × (1 ≤ place) × (width * place ≤ 128) }
    ensures { B.held out.new ≡ put B.most (B.held out.old) (some_masked width place before) }
{
    out.put_all(b": masked, not written: ");
    put_runs(
        out,
        (width * (place - 1) + 1) as u32,
        masked(width, before.masks),
    );
    out.put_all(others_later(before.fault));
}

fn others_later(fault: bool) -> &'static [u8]
    ensures { result.now ≡ cond fault (ascii "; in fault, driven later") [] }
{
    if fault {
        b"; in fault, driven later"
    } else {
        b""
    }
}

// The lines whose mask is 0, by the masks of so many.
fn masked(width: usize, masks: u32) -> u32
    requires { width ≤ 32 }
    ensures { result ≡ masked width masks }
{
    let all = (1u64 << width) - 1;
    all.saturating_sub(u64::from(masks)) as u32
}
