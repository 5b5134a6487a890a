// Numbers as digits spell them, of at most 32 bits.
ghost use Rattle.std.specs.Prelude.{◌≡◌, ◌≤◌, unwrap_or};
ghost use Rattle.words.specs.Numbers.{no_number, number_of, short_number, signed_of, bits_of};

// The number that a word spells in a base, up to 4,294,967,295.
#[tactic(auto, using(crate::proofs::NumberLaws::digits_read))]
fn number(word: &[u8], base: u32) -> Option<u32>
    requires { (2 ≤ base) × (base ≤ 16) }
    ensures { unwrap_or result no_number ≡ number_of base word.now }
{
    if word.is_empty() {
        return None;
    }
    let mut value: u32 = 0;
    for &byte in word {
        let digit = char::from(byte).to_digit(base)?;
        value = value.checked_mul(base)?.checked_add(digit)?;
    }
    Some(value)
}

// A decimal number.
pub fn decimal(word: &[u8]) -> Option<u32>
    ensures { unwrap_or result no_number ≡ number_of 10 word.now }
{
    number(word, 10)
}

// A hexadecimal number of at most `most` digits.
#[tactic(auto, unfolding(crate::specs::Numbers::short_number))]
pub fn hexadecimal(word: &[u8], most: usize) -> Option<u32>
    ensures { unwrap_or result no_number ≡ short_number most word.now }
{
    if most < word.len() {
        return None;
    }
    number(word, 16)
}

// A decimal number from -32768 to 32767.
#[tactic(auto, using(std::proofs::lemmas::Int::ints), unfolding(crate::specs::Numbers::signed_of))]
pub fn signed(word: &[u8]) -> Option<i16>
    ensures { bits_of result ≡ signed_of word.now }
{
    match word {
        [b'-', digits @ ..] => i16::try_from(-i64::from(decimal(digits)?)).ok(),
        _ => i16::try_from(decimal(word)?).ok(),
    }
}
