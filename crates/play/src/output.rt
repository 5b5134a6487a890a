// Writing the output that waits: where it is full, at the end of a block, and with the totals behind it.
ghost use Rattle.std.specs.Prelude.{◌≤◌, length, nat_lt};
ghost use Rattle.play.specs.Sessions.{full, OrUnwritten, WrittenOut, MadeRoom, Finished};

use crate::failure::Failure;
use crate::session::Session;
use answers::{put_judged, put_totals};
use std::io::Write;

// Up to here the output has room for what any line gets.
const FULL: usize = 6_144;

impl Session {
    // Writes the output once the longest answer line may not fit any more.
    #[tactic(auto, using(crate::proofs::OutputLaws::room_left, crate::proofs::OutputLaws::no_room))]
    pub(crate) fn make_room<W: Write>(&mut self, writer: &mut W) -> Result<(), Failure>
        ensures { OrUnwritten result (MadeRoom (nat_lt (length self.old.out.items) full)
            (W.contents writer.old) self.old (W.contents writer.new) self.new) }
    {
        if self.out.len() < FULL {
            return Ok(());
        }
        self.flush(writer)
    }

    // Writes what waits, so that at a terminal each line is answered at once.
    pub fn flush<W: Write>(&mut self, writer: &mut W) -> Result<(), Failure>
        ensures { OrUnwritten result (WrittenOut (W.contents writer.old) self.old (W.contents writer.new) self.new) }
    {
        if let Err(_) = writer.write_all(&self.out) {
            return Err(Failure::Writing);
        }
        self.out.clear();
        Ok(())
    }

    // The totals, behind what waits.
    #[tactic(auto, using(crate::proofs::LineLaws::ended))]
    pub(crate) fn finish<W: Write>(&mut self, writer: &mut W) -> Result<(), Failure>
        requires { length self.old.out.items ≤ full }
        ensures { OrUnwritten result (Finished (W.contents writer.old) self.old (W.contents writer.new) self.new) }
    {
        put_totals(&mut self.out, self.calls, self.refused, self.unknown);
        put_judged(&mut self.out, self.met, self.unmet);
        self.flush(writer)
    }
}
