// Bytes up to a line's end, and a buffer filled at the start.
ghost use Rattle.std.specs.Prelude.{◌≡◌, take};
ghost use Rattle.notation.specs.Promises.{ReadLast};

use words::Expected;
use words::buffers::Buffer;
use words::items::read_items;
use words::split::is_blank;

#[tactic(auto, using(crate::proofs::Laws::next))]
pub fn last_bytes<B: Buffer<u8>>(rest: &[u8]) -> Result<B, Expected>
    ensures { ReadLast B.most B.held rest.now result }
{
    let bytes = read_items(rest)?;
    if !is_blank(bytes.rest) {
        return Err(Expected::Byte);
    }
    Ok(bytes.items)
}

// A buffer that holds some items, as many as there may be.
#[tactic(auto, unfolding(words::specs::Buffers::put))]
pub fn filled<T, B: Buffer<T>>(items: &[T]) -> B
    ensures { B.held result ≡ take B.most items.now }
{
    let mut buffer = B::empty();
    buffer.put_all(items);
    buffer
}
