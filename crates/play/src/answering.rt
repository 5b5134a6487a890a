// What one line of a list gets: a call's answer, or the comparison of an expected answer with the last one.
ghost use Rattle.std.specs.Prelude.{◌≡◌, ◌+◌, ◌≤◌, length};
ghost use Rattle.play.specs.Playing.{without_mark, short_meaning, line_of};
ghost use Rattle.play.specs.Playing.Line.{expects};
ghost use Rattle.play.specs.Sessions.{full, PlayedWhole, Remembered, Answered};

use crate::session::Session;
use answers::put_unmet;
use words::Expected;
use words::buffers::Buffer;
use words::expectations::{expected, is_as_expected, is_expectation};

// A byte order mark in front of line 1 is passed over.
pub(crate) fn without_mark(text: &[u8], line: u64) -> &[u8]
    ensures { result.now ≡ without_mark line text.now }
{
    if line != 1 {
        return text;
    }
    text.strip_prefix(b"\xEF\xBB\xBF").unwrap_or(text)
}

impl Session {
    #[tactic(auto, using(crate::proofs::LineLaws::lines))]
    pub(crate) fn answer_line(&mut self, text: &[u8])
        requires { length self.old.out.items ≤ full }
        ensures { Answered self.old (line_of text.now) self.new }
    {
        if (text.len() <= 1024) & is_expectation(text) {
            return self.compare(expected(text));
        }
        let from = self.out.len();
        self.play_short(text);
        self.remember(from);
    }

    #[tactic(auto, using(crate::proofs::LineLaws::short_line))]
    fn play_short(&mut self, text: &[u8])
        requires { length self.old.out.items ≤ full }
        ensures { PlayedWhole self.old (short_meaning text.now) self.new }
    {
        if 1024 < text.len() {
            return self.reject(Expected::Shorter);
        }
        self.play_text(text);
    }

    // Holds the answer line that was put from a place on, without its newline.
    #[tactic(auto, using(crate::proofs::LineLaws::remembered))]
    fn remember(&mut self, from: usize)
        requires { (from ≤ length self.old.out.items) × (length self.old.out.items ≤ from + 1024) }
        ensures { Remembered self.old from self.new }
    {
        if let [answer @ .., _] = &self.out[from..] {
            self.answer.clear();
            self.answer.put_all(answer);
        }
    }

    // The last answer line has the expected words or not.
    #[tactic(auto, using(crate::proofs::LineLaws::compared_first, crate::proofs::LineLaws::compared_met))]
    fn compare(&mut self, text: &[u8])
        requires { (length self.old.out.items ≤ full) × (length text.now ≤ 1024) }
        ensures { Answered self.old (expects text.now) self.new }
    {
        if self.answer.is_empty() {
            return self.reject(Expected::Answer);
        }
        if is_as_expected(&self.answer, text) {
            self.met = self.met.wrapping_add(1);
            return;
        }
        self.unmet = self.unmet.wrapping_add(1);
        put_unmet(&mut self.out, self.lines, text);
    }
}
