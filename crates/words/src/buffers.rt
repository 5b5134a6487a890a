// Buffers that hold items up to a number of them.
ghost use Rattle.std.specs.Prelude.{◌≡◌, List, [], ◌∷◌, ℕ, length, nat_le};
ghost use Rattle.words.specs.Buffers.{put};

use crate::items::first_items;
use arrayvec::ArrayVec;

pub trait Buffer<T>: Drop {
    // The items, in order.
    ghost held: { Self → List T };

    // How many there may be.
    ghost most: { ℕ };

    fn empty() -> Self
        ensures { held result ≡ [] };

    // Puts items behind those that are held; what has no room is left out.
    fn put_all(&mut self, items: &[T])
        ensures { held self.new ≡ put most (held self.old) items.now };

    // Puts one item behind them, where there is room.
    fn put(&mut self, item: T)
        ensures { held self.new ≡ put most (held self.old) (item ∷ []) };

    fn is_full(&self) -> bool
        ensures { result ≡ nat_le most (length (held self.now)) };
}

impl<T: Copy + Default, const N: usize> Buffer<T> for ArrayVec<T, N> {
    ghost held = { λ v. v.items };

    ghost most = { N };

    fn empty() -> Self {
        ArrayVec::new()
    }

    #[tactic(auto, unfolding(crate::specs::Buffers::put))]
    fn put_all(&mut self, items: &[T]) {
        let room = self.remaining_capacity();
        let _ = self.try_extend_from_slice(first_items(items, room));
    }

    #[tactic(auto, unfolding(crate::specs::Buffers::put))]
    fn put(&mut self, item: T) {
        let _ = self.try_push(item);
    }

    fn is_full(&self) -> bool {
        ArrayVec::is_full(self)
    }
}
