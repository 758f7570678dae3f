ghost use Rattle.std.specs.Prelude.{◌≡◌, ℕ, ◌+◌, ◌*◌, ◌%◌, ◌≤◌, List, ◌++◌, length, take, drop, is_some, IfSome, is_ok, if◌then◌else◌, Some, None};
ghost use Rattle.bodies.specs.Weights.{weigh, longest_body};
ghost use Rattle.numbered.specs.Buffers.{holding, largest_number, places, has_space, weight_of, insertion, table_with, one_more, gone_to, value_at, value_from, where_places, shown, OfSize, Insert, Evict, after};

use super::entry::Entry;
use super::numbers::Numbers;
use bodies::body::Body;
use bodies::weight::{HEADER_LENGTH, entry_weight};

// Why a value was not inserted: the first of these that is so.
#[derive(Clone, Copy, PartialEq, Debug)]
pub enum Uninserted {
    NoNumber,
    Full,
    ShortTable,
}

// Writes a value over the bytes from one on.
fn write_at<B: Body>(table: &mut [u8], at: usize, value: B)
    requires { at + B.Body.size ≤ length table.old }
    ensures { table.new ≡ take at table.old ++ (B.Body.bytes value ++ drop (at + B.Body.size) table.old) }
{
    // A part of just the value's length refuses no value.
    let _ = value.write(&mut table[at..at + B::size()]);
}

// The buffer of values of one body kind that these numbers and a table of bytes make. By a rule of the project the table is plain bytes, lent to
// each call; so what the two mean (`holding`), and that too short a table shows nothing, stand in the clauses.
impl Numbers {
    // What the buffer weighs: values as header and body, bare numbers as headers.
    pub fn weight<B: Body>(&self) -> usize
        ensures is { (table : List ℕ) → result ≡ weight_of B.Body.size (holding B.Body.size self.now table) }
        ensures bounds { result ≤ largest_number * weigh longest_body }
    {
        self.value_count() as usize * entry_weight::<B>()
            + self.bare_count() as usize * HEADER_LENGTH
    }

    // Whether the next value is within the limit; one whose number is bare always is.
    pub fn has_space<B: Body>(&self) -> bool
        ensures { (table : List ℕ) → result ≡ has_space self.now.limit B.Body.size (holding B.Body.size self.now table) }
    {
        self.next_is_bare() || self.weight::<B>() + entry_weight::<B>() <= self.limit as usize
    }

    // Where a number's body begins, if the table has every place.
    fn place<B: Body>(&self, table: &[u8], number: u32) -> Option<usize>
        ensures is { result ≡ where_places self.now.limit B.Body.size (length table.now) (Some (number % places self.now.limit B.Body.size * B.Body.size)) }
        ensures within { IfSome result (λ at. at + B.Body.size ≤ length table.now) }
    {
        let size = B::size();
        let places = self.limit as usize / entry_weight::<B>();
        if places == 0 || places * size > table.len() {
            return None;
        }
        Some(number as usize % places * size)
    }

    // Inserts a value with the next number, which is answered. Where that number is bare, it is used up and the value dropped.
    pub fn insert<B: Body>(&mut self, table: &mut [u8], value: B) -> Result<u32, Uninserted>
        ensures answer { result ≡ insertion self.old.limit B.Body.size (length table.old) (holding B.Body.size self.old table.old) }
        ensures after { holding B.Body.size self.new table.new ≡ after B.Body.bytes self.old.limit B.Body.size (length table.old) (Insert value) (holding B.Body.size self.old table.old) }
        ensures counted { self.new ≡ (if is_ok result then one_more self.old else self.old) }
        ensures laid { table.new ≡ (if is_ok result then table_with self.old.limit B.Body.size table.old (B.Body.bytes value) (holding B.Body.size self.old table.old) else table.old) }
    {
        let number = self.last.checked_add(1).ok_or(Uninserted::NoNumber)?;
        if !self.next_is_bare() {
            if !self.has_space::<B>() {
                return Err(Uninserted::Full);
            }
            let at = self
                .place::<B>(table, number)
                .ok_or(Uninserted::ShortTable)?;
            write_at::<B>(table, at, value);
        }
        self.last = number;
        Ok(number)
    }

    // The entry of that number.
    pub fn entry<'a, B: Body>(&self, table: &'a [u8], number: u32) -> Option<Entry<'a>>
        ensures is { shown result ≡ where_places self.now.limit B.Body.size (length table.now) (value_at number (holding B.Body.size self.now table.now)) }
        ensures long { OfSize B.Body.size result }
    {
        if number <= self.gone || number > self.last {
            return None;
        }
        let at = self.place::<B>(table, number)?;
        Some(Entry {
            number,
            body: &table[at..at + B::size()],
        })
    }

    // The first entry at or after that number.
    pub fn cursor<'a, B: Body>(&self, table: &'a [u8], from: u32) -> Option<Entry<'a>>
        ensures is { shown result ≡ where_places self.now.limit B.Body.size (length table.now) (value_from from (holding B.Body.size self.now table.now)) }
        ensures long { OfSize B.Body.size result }
    {
        if self.last <= self.gone {
            return None;
        }
        self.entry::<B>(table, from.max(self.gone + 1))
    }

    // The first entry leaves, and is given; its body still lies in the table.
    pub fn evict<'a, B: Body>(&mut self, table: &'a [u8]) -> Option<Entry<'a>>
        ensures given { shown result ≡ where_places self.old.limit B.Body.size (length table.now) (value_from 0 (holding B.Body.size self.old table.now)) }
        ensures after { holding B.Body.size self.new table.now ≡ after B.Body.bytes self.old.limit B.Body.size (length table.now) Evict (holding B.Body.size self.old table.now) }
        ensures counted { self.new ≡ (if is_some result then gone_to (self.old.gone + 1) self.old else self.old) }
        ensures long { OfSize B.Body.size result }
    {
        let first = self.cursor::<B>(table, 0)?;
        self.gone = first.number;
        Some(first)
    }
}
