// One row of lines: operations line by line, and sixteen bytes in and out.
ghost use Rattle.std.specs.Prelude.{◌≡◌, ◌&&◌, ◌||◌, length};
ghost use Rattle.profile.specs.Bits.{bit_at, flip, gather};
ghost use Rattle.profile.specs.Bytes.{bytes, line_bit};
ghost use Rattle.windows.specs.View.{row_at, is_empty};
ghost use Rattle.windows.specs.Promises.{Joins, Inverts, Picks, Loaded};

use crate::Row;
use std::ops::{BitAnd, BitOr, BitXor, Not};

impl BitAnd for Row {
    type Output = Row;

    ghost bitand_gives = { Joins ◌&&◌ };

    #[tactic(auto, using(crate::proofs::RowLaws::row_and))]
    fn bitand(self, other: Row) -> Row {
        Row {
            low: self.low & other.low,
            high: self.high & other.high,
        }
    }
}

impl BitOr for Row {
    type Output = Row;

    ghost bitor_gives = { Joins ◌||◌ };

    #[tactic(auto, using(crate::proofs::RowLaws::row_or))]
    fn bitor(self, other: Row) -> Row {
        Row {
            low: self.low | other.low,
            high: self.high | other.high,
        }
    }
}

impl BitXor for Row {
    type Output = Row;

    ghost bitxor_gives = { Joins flip };

    #[tactic(auto, using(crate::proofs::RowLaws::row_xor))]
    fn bitxor(self, other: Row) -> Row {
        Row {
            low: self.low ^ other.low,
            high: self.high ^ other.high,
        }
    }
}

impl Not for Row {
    type Output = Row;

    ghost not_gives = { Inverts };

    #[tactic(auto, using(crate::proofs::RowLaws::row_not))]
    fn not(self) -> Row {
        Row {
            low: !self.low,
            high: !self.high,
        }
    }
}

impl Row {
    // The row with no line, and the row with every line.
    pub const NONE: Row = Row { low: 0, high: 0 };

    pub const ALL: Row = Row {
        low: u64::MAX,
        high: u64::MAX,
    };

    // Where self is 1 the line of a, else that of b.
    #[tactic(auto, using(crate::proofs::RowLaws::row_pick))]
    pub fn pick(self, a: Row, b: Row) -> Row
        ensures { Picks self a b result }
    {
        (b & !self) | (a & self)
    }

    // No line is 1.
    pub fn is_empty(self) -> bool
        ensures { result ≡ is_empty self }
    {
        self == Row::NONE
    }

    // The row that sixteen bytes hold.
    #[tactic(auto, using(crate::proofs::ByteLaws::loaded))]
    pub fn load(bytes: &[u8; 16]) -> Row
        ensures { Loaded bytes.now result }
    {
        let (low, high) = bytes.split_at(8);
        Row {
            low: word(low),
            high: word(high),
        }
    }

    // The row as sixteen bytes.
    #[tactic(auto, using(crate::proofs::ByteLaws::halves))]
    pub fn store(self, out: &mut [u8; 16])
        ensures { out.new ≡ bytes 16 (row_at self) }
    {
        let (low, high) = out.split_at_mut(8);
        put_word(self.low, low);
        put_word(self.high, high);
    }
}

// One word as eight bytes, the least significant first.
#[tactic(auto, using(crate::proofs::ByteLaws::word_bytes))]
fn put_word(word: u64, out: &mut [u8])
    requires { length out.old ≡ 8 }
    ensures { out.new ≡ bytes 8 (bit_at word) }
{
    out.copy_from_slice(&word.to_le_bytes());
}

// Eight bytes as one word, the least significant first.
#[tactic(auto, using(crate::proofs::ByteLaws::bytes_word))]
fn word(bytes: &[u8]) -> u64
    requires { length bytes.now ≡ 8 }
    ensures { result ≡ gather 64 (line_bit bytes.now) }
{
    u64::from_le_bytes(bytes.try_into().unwrap())
}
