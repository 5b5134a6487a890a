// The eight bytes of a reply: its first byte, the request's second to fourth bytes, and data.
ghost use Rattle.std.specs.Prelude.{◌≡◌, ◌%◌, ◌^◌, ◌≤◌};
ghost use Rattle.profile.specs.Server.{reply_frame, download_reply, upload_reply, abort_reply};
ghost use Rattle.server_frames.specs.Layout.{headed, filled};

use crate::first::first_byte;
use profile::ReadValue;

// What a server answers, by its command specifier.
enum Answered {
    Upload = 2,
    Download = 3,
    Abort = 4,
}

pub fn put_download(frame: &[u8; 8], reply: &mut [u8; 8])
    ensures { reply.new ≡ download_reply frame.now }
{
    let first = first_byte(Answered::Download as u8, 0, false, false);
    put_reply(frame, reply, first, 0, 0);
}

// Expedited, and tells its size.
pub fn put_upload(frame: &[u8; 8], reply: &mut [u8; 8], read: ReadValue)
    requires { (1 ≤ read.size) × (read.size ≤ 4) }
    ensures { reply.new ≡ upload_reply frame.now read.size read.value }
{
    let first = first_byte(Answered::Upload as u8, (4 - read.size) as u8, true, true);
    put_reply(frame, reply, first, read.size, read.value);
}

pub fn put_abort(frame: &[u8; 8], reply: &mut [u8; 8], code: u32)
    ensures { reply.new ≡ abort_reply frame.now code }
{
    let first = first_byte(Answered::Abort as u8, 0, false, false);
    put_reply(frame, reply, first, 4, code);
}

// So many data bytes hold the value, the spare ones are 0.
#[tactic(auto, using(crate::proofs::LayoutLaws::reply_stored))]
fn put_reply(frame: &[u8; 8], reply: &mut [u8; 8], first: u8, size: usize, value: u32)
    requires { size ≤ 4 }
    ensures { reply.new ≡ reply_frame first frame.now size value }
{
    put_head(frame, reply, first);
    put_data(reply, low_bytes(value, size));
}

fn put_head(frame: &[u8; 8], reply: &mut [u8; 8], first: u8)
    ensures { reply.new ≡ headed first frame.now reply.old }
{
    reply[0] = first;
    // Byte by byte: copy_from_slice would test, as it runs, whether the two overlap.
    reply[1] = frame[1];
    reply[2] = frame[2];
    reply[3] = frame[3];
}

fn put_data(reply: &mut [u8; 8], held: u32)
    ensures { reply.new ≡ filled held reply.old }
{
    reply[4..8].copy_from_slice(&held.to_le_bytes());
}

// What so many bytes hold of a value, the least significant first.
fn low_bytes(value: u32, size: usize) -> u32
    requires { size ≤ 4 }
    ensures { result ≡ value % 256 ^ size }
{
    match size {
        0 => 0,
        1 => value % 256,
        2 => value % 65_536,
        3 => value % 16_777_216,
        _ => value,
    }
}
