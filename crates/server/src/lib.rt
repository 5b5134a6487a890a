// request, in place: the service data server of document 02.
#![tactic(auto)]

ghost use Rattle.std.specs.Prelude.{◌≡◌, true, false};
ghost use Rattle.profile.specs.Answers.{buffer_answer};
ghost use Rattle.profile.specs.Nodes.{stopped};
ghost use Rattle.profile.specs.Calls.{Plain, Call};
ghost use Rattle.profile.specs.Server.{asks_upload, index_in, sub_in, size_in, data_in};
ghost use Rattle.profile.specs.Replies.{count_reply};
ghost use Rattle.store.specs.View.{node_at};
ghost use Rattle.store.specs.Promises.{Ensured};
ghost use Rattle.server.specs.View.{Done};

use dictionary::refusals::{NO_REQUEST, check_request};
use nodes::is_stopped;
use objects::{read, write};
use profile::refusals::Refusal;
use server_frames::replies::{put_abort, put_download, put_upload};
use server_frames::requests::{aborts, asks_download, asks_upload, index_in, size_in, sub_in};
use store::Store;

// The rows of a request, in the paper's order; then what it asks. The answer is the reply's length in bytes: 8, or 0 where there is none.
#[tactic(auto, using(crate::proofs::Laws::for_request), unfolding(profile::specs::Refusals::request_refusal))]
pub fn request(store: &mut Store, frame: &[u8], reply: &mut [u8]) -> Result<usize, Refusal>
    ensures { Ensured store.old (Call.request frame.now reply.old) (buffer_answer result reply.new) store.new }
{
    check_request(frame.len(), reply.len())?;
    if is_stopped(store.node()) {
        return Ok(0);
    }
    // Their lengths were tested.
    let frame = frame.as_array().unwrap();
    let reply = reply.as_mut_array().unwrap();
    Ok(serve(store, frame, reply))
}

// The length of the reply to a request of a node that is not stopped.
#[tactic(auto, using(crate::proofs::Laws::for_serve), unfolding(profile::specs::Refusals::request_refusal, profile::specs::Server::asked))]
fn serve(store: &mut Store, frame: &[u8; 8], reply: &mut [u8; 8]) -> usize
    requires { stopped (node_at store.old.octets store.old.flags) ≡ false }
    ensures { Ensured store.old (Call.request frame.now reply.old) (count_reply result reply.new) store.new }
{
    let first = frame[0];
    if aborts(first) {
        return 0;
    }
    if asks_upload(first) {
        upload(store, frame, reply);
        return 8;
    }
    if asks_download(first) {
        download(store, frame, reply);
        return 8;
    }
    put_abort(frame, reply, NO_REQUEST);
    8
}

// The plain read, and its reply as a frame.
#[tactic(auto, using(crate::proofs::Laws::for_upload), unfolding(profile::specs::Server::encoded))]
fn upload(store: &mut Store, frame: &[u8; 8], reply: &mut [u8; 8])
    requires { asks_upload frame.now ≡ true }
    ensures { Done store.old (Plain.read (index_in frame.now) (sub_in frame.now)) frame.now reply.new store.new }
{
    match read(store, index_in(frame), sub_in(frame)) {
        Ok(done) => put_upload(frame, reply, done),
        Err(refusal) => put_abort(frame, reply, refusal.number()),
    }
}

// The plain write, and its reply as a frame.
#[tactic(auto, using(profile::proofs::AnswerLaws::nonzero), unfolding(profile::specs::Server::encoded))]
fn download(store: &mut Store, frame: &[u8; 8], reply: &mut [u8; 8])
    requires { asks_upload frame.now ≡ false }
    ensures { Done store.old
        (Plain.write (index_in frame.now) (sub_in frame.now) (data_in (size_in frame.now) frame.now))
        frame.now reply.new store.new }
{
    let data = &frame[4..4 + size_in(frame)];
    match write(store, index_in(frame), sub_in(frame), data) {
        Ok(()) => put_download(frame, reply),
        Err(refusal) => put_abort(frame, reply, refusal.number()),
    }
}
