// What a request asks: a download or an upload of which entry, with which size.
ghost use Rattle.std.specs.Prelude.{◌≡◌, ◌&&◌, ◌≤◌, eqb};
ghost use Rattle.profile.specs.Bytes.{little_endian};
ghost use Rattle.profile.specs.Server.{command_of, is_expedited, told_size, index_in, sub_in, data_in, size_in};

use crate::first::{command_of, is_expedited, tells_size, unused_of};
use channels::numbers::number;
use dictionary::entries::find;

// What a client asks, by its command specifier.
enum Asked {
    Download = 1,
    Upload = 2,
    // A server's too.
    Abort = 4,
}

// An expedited download: no other is known.
pub fn asks_download(first: u8) -> bool
    ensures { result ≡ eqb (command_of first) 1 && is_expedited first }
{
    (command_of(first) == Asked::Download as u8) & is_expedited(first)
}

pub fn asks_upload(first: u8) -> bool
    ensures { result ≡ eqb (command_of first) 2 }
{
    command_of(first) == Asked::Upload as u8
}

pub fn aborts(first: u8) -> bool
    ensures { result ≡ eqb (command_of first) 4 }
{
    command_of(first) == Asked::Abort as u8
}

// The second and the third byte, the least significant first.
pub fn index_in(frame: &[u8; 8]) -> u16
    ensures { result ≡ index_in frame.now }
{
    u16::from_le_bytes([frame[1], frame[2]])
}

pub fn sub_in(frame: &[u8; 8]) -> u8
    ensures { result ≡ sub_in frame.now }
{
    frame[3]
}

// The code of an abort.
pub fn code_in(frame: &[u8; 8]) -> u32
    ensures { result ≡ little_endian (data_in 4 frame.now) }
{
    number(&frame[4..])
}

// How many of the four data bytes a download writes: as many as it tells, or as many as the entry has.
pub fn size_in(frame: &[u8; 8]) -> usize
    ensures { (result ≡ size_in frame.now) × (result ≤ 4) }
{
    if tells_size(frame[0]) {
        return told_size(frame[0]);
    }
    match find(index_in(frame), sub_in(frame)) {
        Ok(entry) => usize::from(entry.size),
        Err(_) => 0,
    }
}

#[tactic(auto, unfolding(profile::specs::Server::unused_of))]
fn told_size(first: u8) -> usize
    ensures { result ≡ told_size first }
{
    4 - usize::from(unused_of(first))
}
