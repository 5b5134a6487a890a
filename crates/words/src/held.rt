// A buffer that can be copied.
ghost use Rattle.std.specs.Prelude.{◌≡◌, ◌≤◌, length};
ghost use Rattle.words.specs.Held.{held};

use crate::buffers::Buffer;
use crate::items::first_items;
use std::ops::DerefSlice;

// Up to N items. A call of a list holds its data in these, since it can be copied, and an `ArrayVec` can't.
#[derive(Clone, Copy, Drop)]
pub struct Held<T, const N: usize> {
    // The items, and behind them what no contract speaks of.
    places: [T; N],
    // How many items; above N it stands for N, so that any count is one.
    count: usize,
}

impl<T: Copy + Default, const N: usize> Buffer<T> for Held<T, N> {
    ghost held = { held };

    ghost most = { N };

    fn empty() -> Self {
        Held {
            places: Default::default(),
            count: 0,
        }
    }

    #[tactic(auto, unfolding(crate::specs::Buffers::put))]
    fn put_all(&mut self, items: &[T]) {
        let from = self.count.min(N);
        let more = first_items(items, N - from);
        let to = from + more.len();
        let places = &mut self.places[..];
        places[from..to].copy_from_slice(more);
        self.count = to;
    }

    #[tactic(auto, unfolding(crate::specs::Buffers::put))]
    fn put(&mut self, item: T) {
        if self.count < N {
            self.places[self.count] = item;
            self.count += 1;
        }
    }

    fn is_full(&self) -> bool {
        N <= self.count
    }
}

impl<T, const N: usize> DerefSlice for Held<T, N> {
    type Elem = T;

    ghost deref_gives = { λ v xs. (xs ≡ held v) × (length xs ≤ N) };

    fn deref(&self) -> &[T] {
        first_items(&self.places, self.count)
    }
}
