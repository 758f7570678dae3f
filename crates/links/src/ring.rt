ghost use Rattle.std.specs.Prelude.{◌≡◌, ◌+◌, ◌^◌, ◌<◌, ◌≤◌, [], ◌∷◌, ◌++◌, length, drop, slice_get};
ghost use Rattle.std.specs.Option.{option_copied};

use std::marker::Model;

// A queue of at most `N` items, in places of which the last is followed by the first. The places are memory of its own, since the core
// allocates nothing; the rings of the libraries are on the heap.
#[derive(Drop)]
pub struct Ring<T, const N: usize> {
    places: [T; N],
    first: usize,
    count: usize,
}

// Clauses see the items, the oldest first.
impl<T, const N: usize> Model for Ring<T, N> {
    ghost use Rattle.std.specs.Prelude.{◌+◌, ◌^◌, ◌<◌, ◌≤◌, List};
    ghost use Rattle.links.specs.Rings.{items_in};

    ghost Value = { List T };

    ghost view = { λ r. items_in r.places r.first r.count };

    ghost invariant = { λ r. (r.first < N) × (r.count ≤ N) × (N + N ≤ 2 ^ 64) };
}

impl<T: Copy, const N: usize> Ring<T, N> {
    // An empty ring, with `blank` in its places, of which there are few enough that two numbers of places can be added.
    pub fn new(blank: T) -> Self
        requires some { 0 < N }
        requires few { N + N ≤ 2 ^ 64 }
        ensures { result ≡ [] }
    {
        Ring {
            places: [blank; N],
            first: 0,
            count: 0,
        }
    }

    pub fn len(&self) -> usize
        ensures { result ≡ length self.now }
    {
        self.count
    }

    pub fn front(&self) -> Option<&T>
        ensures { option_copied result ≡ slice_get self.now 0 }
    {
        if self.count == 0 {
            return None;
        }
        Some(&self.places[self.first])
    }

    pub fn push_back(&mut self, item: T)
        requires { length self.old < N }
        ensures { self.new ≡ self.old ++ item ∷ [] }
    {
        self.places[(self.first + self.count) % N] = item;
        self.count += 1;
    }

    // Takes the oldest item off.
    pub fn drop_front(&mut self)
        requires { 0 < length self.old }
        ensures { self.new ≡ drop 1 self.old }
    {
        self.first = (self.first + 1) % N;
        self.count -= 1;
    }

    pub fn clear(&mut self)
        ensures { self.new ≡ [] }
    {
        self.count = 0;
    }
}
