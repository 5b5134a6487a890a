// A line as a call.
ghost use Rattle.std.specs.Prelude.{◌≡◌};
ghost use Rattle.profile.specs.Commands.{command_code};
ghost use Rattle.words.specs.Words.{words_of};
ghost use Rattle.words.specs.Items.{byte_item, items_of};
ghost use Rattle.notation.specs.Promises.{SaysCause, said, up_to};
ghost use Rattle.notation.specs.Meanings.{meaning_of, plain_meaning, named_command, create_meaning, command_meaning, named_meaning};
ghost use Rattle.notation.specs.Meanings.{access_meaning, entry_meaning, sub_index_of, sample_meaning, drive_meaning};

use crate::Call;
use crate::bytes::{filled, last_bytes};
use crate::heartbeats::{elapsed, heartbeat};
use crate::messages::{receive, transmit};
use crate::parts::{end, past_slash, small};
use crate::requests::request;
use profile::Cause;
use profile::commands::Command;
use words::Expected;
use words::items::{ListItem, read_items};
use words::numbers::hexadecimal;
use words::split::{after_word, content, first_word, is_blank, until};

// Words are compared by ==, since a match on byte strings leaves a goal for each byte at which a word can differ.
#[tactic(auto, using(crate::proofs::Laws::next), unfolding(crate::specs::Meanings::meaning_of, crate::specs::Meanings::words_meaning))]
pub fn understand(line: &[u8]) -> Result<Call, Expected>
    ensures { said result ≡ meaning_of line.now }
{
    let text = content(line);
    let word = first_word(text);
    let rest = after_word(text);
    if word.is_empty() {
        return Ok(Call::Nothing);
    }
    if word == b"sample".as_slice() {
        return sample(rest);
    }
    if word == b"drive".as_slice() {
        return drive(rest);
    }
    if word == b"receive".as_slice() {
        return receive(rest);
    }
    if word == b"transmit".as_slice() {
        return transmit(rest);
    }
    if word == b"request".as_slice() {
        return request(rest);
    }
    plain_call(word, rest)
}

// The calls that bring no buffers.
#[tactic(auto, using(words::proofs::SplitLaws::is_word_is), unfolding(crate::specs::Meanings::plain_meaning))]
fn plain_call(word: &[u8], rest: &[u8]) -> Result<Call, Expected>
    ensures { said result ≡ plain_meaning word.now (words_of rest.now) }
{
    if word == b"create".as_slice() {
        return create(rest);
    }
    if word == b"command".as_slice() {
        return command(rest);
    }
    if word == b"raise".as_slice() {
        return cause(rest).map(Call::Raise);
    }
    if word == b"clear".as_slice() {
        return cause(rest).map(Call::Clear);
    }
    if word == b"heartbeat".as_slice() {
        return heartbeat(rest);
    }
    if word == b"elapsed".as_slice() {
        return elapsed(rest);
    }
    named_command(word, rest)
}

// The commands that have names of their own; any other word is an entry.
#[tactic(auto, using(words::proofs::SplitLaws::is_word_is), unfolding(crate::specs::Meanings::named_command))]
fn named_command(word: &[u8], rest: &[u8]) -> Result<Call, Expected>
    ensures { said result ≡ named_command word.now (words_of rest.now) }
{
    if word == b"start".as_slice() {
        return command_to(Command::Start, rest);
    }
    if word == b"stop".as_slice() {
        return command_to(Command::Stop, rest);
    }
    if word == b"pre-operational".as_slice() {
        return command_to(Command::EnterPreOperational, rest);
    }
    if word == b"reset-node".as_slice() {
        return command_to(Command::ResetNode, rest);
    }
    if word == b"reset-communication".as_slice() {
        return command_to(Command::ResetCommunication, rest);
    }
    access(word, rest)
}

#[tactic(auto, using(crate::proofs::Laws::next), unfolding(crate::specs::Meanings::create_meaning))]
fn create(rest: &[u8]) -> Result<Call, Expected>
    ensures { said result ≡ create_meaning (words_of rest.now) }
{
    let node = small(first_word(rest))?;
    end(after_word(rest))?;
    Ok(Call::Create(node))
}

#[tactic(auto, using(crate::proofs::Laws::next), unfolding(crate::specs::Meanings::command_meaning))]
fn command(rest: &[u8]) -> Result<Call, Expected>
    ensures { said result ≡ command_meaning (words_of rest.now) }
{
    let code = small(first_word(rest))?;
    let more = after_word(rest);
    let node = small(first_word(more))?;
    end(after_word(more))?;
    Ok(Call::Command(code, node))
}

// A command by name, for all nodes unless a number follows.
#[tactic(auto, using(crate::proofs::Laws::next), unfolding(crate::specs::Meanings::named_meaning))]
fn command_to(command: Command, rest: &[u8]) -> Result<Call, Expected>
    ensures { said result ≡ named_meaning (command_code command) (words_of rest.now) }
{
    let code = command as u8;
    if is_blank(rest) {
        return Ok(Call::Command(code, 0));
    }
    let node = small(first_word(rest))?;
    end(after_word(rest))?;
    Ok(Call::Command(code, node))
}

// The cause that a raise or a clear names.
#[tactic(auto, using(crate::proofs::Laws::next), unfolding(crate::specs::Meanings::fault_meaning, crate::specs::Meanings::cause_meaning))]
fn cause(rest: &[u8]) -> Result<Cause, Expected>
    ensures { SaysCause (words_of rest.now) result }
{
    let word = first_word(rest);
    end(after_word(rest))?;
    if word == b"internal".as_slice() {
        return Ok(Cause::Internal);
    }
    if word == b"communication".as_slice() {
        return Ok(Cause::Lost);
    }
    Err(Expected::Cause)
}

// A read or a write of the entry that a word names.
#[tactic(auto, unfolding(crate::specs::Meanings::access_meaning))]
fn access(word: &[u8], rest: &[u8]) -> Result<Call, Expected>
    ensures { said result ≡ access_meaning word.now (words_of rest.now) }
{
    let colon = until(word, b':');
    let index = hexadecimal(&word[..colon], 4)
        .and_then(|n| u16::try_from(n).ok())
        .ok_or(Expected::Call)?;
    let sub = sub_index(&word[colon..])?;
    entry(index, sub, rest)
}

// A read where nothing follows, a write of the bytes after a `=`.
#[tactic(auto, using(crate::proofs::Laws::next))]
fn entry(index: u16, sub: u8, rest: &[u8]) -> Result<Call, Expected>
    ensures { said result ≡ entry_meaning index sub (words_of rest.now) }
{
    if is_blank(rest) {
        return Ok(Call::Read(index, sub));
    }
    if first_word(rest) != b"=".as_slice() {
        return Err(Expected::Data);
    }
    Ok(Call::Write(index, sub, last_bytes(after_word(rest))?))
}

// What follows an index: nothing, for sub-index 0, or a colon and a sub-index.
fn sub_index(word: &[u8]) -> Result<u8, Expected>
    ensures { result ≡ up_to 255 Expected.Byte (sub_index_of word.now) }
{
    match word {
        [] => Ok(0),
        [_, digits @ ..] => u8::read(digits),
    }
}

#[tactic(auto, using(crate::proofs::Laws::next))]
fn sample(rest: &[u8]) -> Result<Call, Expected>
    ensures { said result ≡ sample_meaning (items_of byte_item 64 (words_of rest.now)) }
{
    let digital = read_items(rest)?;
    let analogue = read_items(past_slash(digital.rest)?)?;
    if is_blank(analogue.rest) {
        return Ok(Call::Sample(digital.items, analogue.items, filled(&[0; 16])));
    }
    let events = last_bytes(after_word(analogue.rest))?;
    Ok(Call::Sample(digital.items, analogue.items, events))
}

#[tactic(auto, using(crate::proofs::Laws::next), unfolding(crate::specs::Meanings::drive_meaning))]
fn drive(rest: &[u8]) -> Result<Call, Expected>
    ensures { said result ≡ drive_meaning (words_of rest.now) }
{
    if is_blank(rest) {
        return Ok(Call::Drive(filled(&[0; 16]), filled(&[0; 8])));
    }
    let lines = read_items(rest)?;
    let channels = read_items(past_slash(lines.rest)?)?;
    if !is_blank(channels.rest) {
        return Err(Expected::Signed);
    }
    Ok(Call::Drive(lines.items, channels.items))
}
