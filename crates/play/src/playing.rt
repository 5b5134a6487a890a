// Playing a list: all that a reader gives is read, and the list's transcript is written, a block after the other.
ghost use Rattle.std.specs.Prelude.{◌≤◌, length, IfErr, IfSome, MatchResult, OnOk};
ghost use Rattle.std.specs.Io.KnownBytes.{Appends, IsAtEnd};
ghost use Rattle.play.specs.Transcripts.{transcript};
ghost use Rattle.play.specs.Sessions.{full, Turned, TurnFailed, BrokenOff};

use crate::failure::Failure;
use crate::session::Session;
use std::io::{Read, Write};

// Plays a whole list: its transcript is written and nothing else.
pub fn play<R: Read, W: Write>(reader: &mut R, writer: &mut W) -> Result<(), Failure>
    ensures whole { OnOk result (IfSome (R.remaining reader.old)
        (λ input. Appends (W.contents writer.old) (W.contents writer.new) (transcript input))) }
    ensures end { OnOk result (IsAtEnd (R.remaining reader.new)) }
    ensures broken { IfErr result (λ f. BrokenOff f (R.remaining reader.old) (W.contents writer.old)
        (R.remaining reader.new) (W.contents writer.new)) }
{
    let mut session = Session::fresh();
    // Nothing says that the input ends, so the turns are as many as no list uses up.
    for turn in 0..u64::MAX {
        if !play_block(reader, writer, &mut session)? {
            return session.close(writer);
        }
    }
    Err(Failure::Endless)
}

// Reads and plays one block, and writes what it got; answers whether there was one.
fn play_block<R: Read, W: Write>(
    reader: &mut R,
    writer: &mut W,
    session: &mut Session,
) -> Result<bool, Failure>
    requires { length session.old.out.items ≤ full }
    ensures { MatchResult result
        (λ more. Turned more (R.remaining reader.old) (W.contents writer.old) session.old
        (R.remaining reader.new) (W.contents writer.new) session.new)
        (λ f. TurnFailed f (R.remaining reader.old) (W.contents writer.old) session.old
        (R.remaining reader.new) (W.contents writer.new) session.new) }
{
    let mut block = io::buffer();
    match reader.read(&mut block) {
        Ok(0) => Ok(false),
        Ok(n) => {
            session.play_bytes(writer, &block[..n])?;
            session.flush(writer)?;
            Ok(true)
        }
        Err(_) => Err(Failure::Reading),
    }
}
