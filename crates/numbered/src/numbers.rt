ghost use Rattle.std.specs.Prelude.{◌≡◌, ℕ, ◌+◌, ◌-◌, min, max, List, is_ok, if◌then◌else◌, nat_lt};
ghost use Rattle.numbered.specs.Buffers.{holding, empty, bare_adding, gone_to, EvictThrough, AddBare, after};

use bodies::weight::HEADER_LENGTH;

// The numbers of a buffer.
#[derive(Clone, Copy, PartialEq, Debug)]
pub struct Numbers {
    // the bytes that the buffer may weigh
    pub limit: u32,
    // the last number that is gone: evicted, or acknowledged before it was produced
    pub gone: u32,
    // the last number given to a value
    pub last: u32,
}

// Why a bare number was not added: the first of these that is so.
#[derive(Clone, Copy, PartialEq, Debug)]
pub enum Unadded {
    HoldsValues,
    NoNumber,
    Full,
}

impl Numbers {
    // An empty buffer of this weight limit; its first number is 1.
    pub fn new(limit: u32) -> Numbers
        ensures is { result ≡ record { limit = limit; gone = 0; last = 0 } }
        ensures holds { (size : ℕ) (table : List ℕ) → holding size result table ≡ empty }
    {
        Numbers {
            limit,
            gone: 0,
            last: 0,
        }
    }

    // Whether the number that the next value gets is without a body already.
    pub(crate) fn next_is_bare(&self) -> bool
        ensures { result ≡ nat_lt self.now.last self.now.gone }
    {
        self.last < self.gone
    }

    // How many values there are.
    pub(crate) fn value_count(&self) -> u32
        ensures { result ≡ self.now.last - self.now.gone }
    {
        self.last.saturating_sub(self.gone)
    }

    // How many bare numbers there are.
    pub(crate) fn bare_count(&self) -> u32
        ensures { result ≡ self.now.gone - self.now.last }
    {
        self.gone.saturating_sub(self.last)
    }

    // The values up to that number leave, as far as there are any; bare numbers stay.
    pub fn evict_through(&mut self, number: u32)
        ensures is { self.new ≡ gone_to (max self.old.gone (min number self.old.last)) self.old }
        ensures after { (bytes : List ℕ → List ℕ) (size table_length : ℕ) (table : List ℕ) → holding size self.new table ≡ after bytes self.old.limit size table_length (EvictThrough number) (holding size self.old table) }
    {
        self.gone = self.gone.max(number.min(self.last));
    }

    // One bare number more, which is answered.
    pub fn add_bare(&mut self) -> Result<u32, Unadded>
        ensures answer { (size : ℕ) (table : List ℕ) → result ≡ bare_adding self.old.limit size (holding size self.old table) }
        ensures is { self.new ≡ (if is_ok result then gone_to (self.old.gone + 1) self.old else self.old) }
        ensures after { (bytes : List ℕ → List ℕ) (size table_length : ℕ) (table : List ℕ) → holding size self.new table ≡ after bytes self.old.limit size table_length AddBare (holding size self.old table) }
    {
        if self.value_count() > 0 {
            return Err(Unadded::HoldsValues);
        }
        let number = self.gone.checked_add(1).ok_or(Unadded::NoNumber)?;
        if (self.bare_count() as usize + 1) * HEADER_LENGTH > self.limit as usize {
            return Err(Unadded::Full);
        }
        self.gone = number;
        Ok(number)
    }
}
