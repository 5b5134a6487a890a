// Words for a number or for what was expected.
ghost use Rattle.std.specs.Prelude.{◌≡◌};
ghost use Rattle.answers.specs.Answers.{expected_text};
ghost use Rattle.answers.specs.EntryWords.{attribute_text, name_text};
ghost use Rattle.answers.specs.Refusals.{refusal_text};

use dictionary::refusals::NO_REQUEST;
use words::Expected;

// An attribute of the digital lines.
#[tactic(auto, unfolding(crate::specs::EntryWords::attributes, crate::specs::EntryWords::attribute_text))]
pub fn attribute(row: usize) -> &'static [u8]
    ensures { result.now ≡ attribute_text row }
{
    match row {
        0 => b"input",
        1 => b"input polarity",
        2 => b"input filter",
        3 => b"any change",
        4 => b"low-to-high",
        5 => b"high-to-low",
        6 => b"output",
        7 => b"output polarity",
        8 => b"error mode",
        9 => b"error value",
        _ => b"output filter mask",
    }
}

// An entry of the device or of a channel, by its index.
#[tactic(auto, unfolding(crate::specs::EntryWords::names, crate::specs::EntryWords::name_text))]
pub fn name(index: u16) -> &'static [u8]
    ensures { result.now ≡ name_text index }
{
    match index {
        0x1001 => b"error register",
        0x1029 => b"behaviour on communication loss",
        0x2003 => b"filter length",
        0x6005 => b"digital event enable",
        0x6401 => b"input",
        0x6411 => b"output",
        0x6421 => b"event selection",
        0x6423 => b"analogue event enable",
        0x6424 => b"upper limit",
        0x6425 => b"lower limit",
        0x6426 => b"delta",
        0x6427 => b"negative delta",
        0x6428 => b"positive delta",
        0x6443 => b"error mode",
        _ => b"error value",
    }
}

// What a refusal means.
#[tactic(auto, unfolding(crate::specs::Refusals::refusals, crate::specs::Refusals::refusal_text))]
pub fn meaning(number: u32) -> &'static [u8]
    ensures { result.now ≡ refusal_text number }
{
    match number {
        1 => b"node number out of range",
        2 => b"no such command",
        3 => b"not 16 digital bytes",
        4 => b"not 16 analogue numbers",
        5 => b"event buffer not 16 bytes",
        6 => b"not 16 bytes and 8 numbers",
        0x0800_0022 => b"node stopped",
        0x0602_0000 => b"no such object",
        0x0609_0011 => b"no such sub-index",
        0x0601_0002 => b"read only",
        0x0607_0012 => b"data too long",
        0x0607_0013 => b"data too short",
        0x0609_0030 => b"value not allowed",
        0x0609_0031 => b"value too high",
        0x0609_0032 => b"value too low",
        0x0601_0000 => b"count is not 0",
        0x0604_0041 => b"entry cannot be mapped",
        0x0604_0042 => b"more than 8 entries or 64 bits",
        0x0604_0043 => b"node watched by another entry",
        NO_REQUEST => b"not an expedited transfer",
        _ => b"refused",
    }
}

// What should have stood in a line.
pub fn wanted(expected: Expected) -> &'static [u8]
    ensures { result.now ≡ expected_text expected }
{
    match expected {
        Expected::Call => b"a call or an index of 1 to 4 hexadecimal digits",
        Expected::Byte => b"1 or 2 hexadecimal digits",
        Expected::Small => b"a number from 0 to 255",
        Expected::Signed => b"a number from -32768 to 32767",
        Expected::Cause => b"internal or communication",
        Expected::Data => b"= between spaces, or the end of the line",
        Expected::Slash => b"/ and numbers",
        Expected::Fewer => b"at most 64 in a buffer",
        Expected::End => b"the end of the line",
        Expected::Shorter => b"at most 1,024 bytes",
        Expected::Answer => b"an answer before this line",
        Expected::Message => b"a number from 1 to 4",
        Expected::Milliseconds => b"a number from 0 to 4294967295",
    }
}
