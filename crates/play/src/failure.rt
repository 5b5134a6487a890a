// Why a list was not played to its end, and what a person is told of it.
ghost use Rattle.std.specs.Prelude.{◌≡◌};
ghost use Rattle.play.specs.Sessions.{failure_text};

// The input could not be read, the output could not be written, or the input had no end in 2^64 - 1 blocks.
#[derive(Clone, Copy, PartialEq, Eq)]
pub enum Failure {
    Reading,
    Writing,
    Endless,
}

impl Failure {
    pub fn text(self) -> &'static [u8]
        ensures { result.now ≡ failure_text self }
    {
        match self {
            Failure::Reading => b"play: cannot read the list\n",
            Failure::Writing => b"play: cannot write the answers\n",
            Failure::Endless => b"play: the list does not end\n",
        }
    }
}
