ghost use Rattle.std.specs.Prelude.{◌≡◌, ℕ, ◌<◌, ◌≤◌, Bool, true, List, [], length, None, MatchOption, ◌≢◌, nat_le, is_ok};
ghost use Rattle.bodies.specs.Bodies.{Laid};
ghost use Rattle.line_operators.specs.Rows.{orderly, found, with_row, put_in, without, listing};
ghost use Rattle.line_operators.specs.Places.{Place};

use arrayvec::ArrayVec;
use bodies::body::Body;
use key::Ranked;
use reading::{in_order, read_rows};

pub mod key;
mod reading;

// A body that stands in a table by its key.
pub trait Row: Body + Default {
    type Key: Ranked;

    ghost key: { Self → Self.Key };

    // whether a table may hold it
    ghost sound: { Self → Bool };

    fn key(&self) -> Self::Key
        ensures { result ≡ key self.now };

    fn sound(&self) -> bool
        ensures { result ≡ sound self.now };

    // the key of a sound row is such a key
    ghost keyed: { (e : Self) → sound e ≡ true → Self.Key.within (key e) };
}

// A new row was to be put where every place is taken.
#[derive(Clone, Copy, PartialEq, Debug)]
pub struct Full;

// At most N rows, each sound, in rising order of their keys; a byte counts them. An operator's state is made of the rows and of these
// facts, so clauses name them, and it has no model.
#[derive(Drop)]
pub struct Table<E: Row, const N: usize> {
    rows: ArrayVec<E, N>,
    ghost counted: { N ≤ 255 },
    ghost few: { length rows.items ≤ N },
    ghost ordered: { orderly (λ e. E.Key.rank (E.key e)) E.sound 0 rows.items ≡ true },
}

impl<E: Row, const N: usize> Table<E, N> {
    pub fn new() -> Self
        requires { N ≤ 255 }
        ensures { result.rows.items ≡ [] }
    {
        Table {
            rows: ArrayVec::new(),
        }
    }

    // Where the key's row stands, or where it would stand.
    fn place(&self, key: E::Key) -> Result<usize, usize>
        requires { E.Key.within key }
        ensures { Place (λ e. E.Key.rank (E.key e)) (E.Key.rank key) self.now.rows.items result }
    {
        let rows = self.rows.as_slice();
        match rows.iter().position(|row| row.key() >= key) {
            Some(i) if rows[i].key() == key => Ok(i),
            Some(i) => Err(i),
            None => Err(rows.len()),
        }
    }

    // The row of a key.
    pub fn find(&self, key: E::Key) -> Option<E>
        requires { E.Key.within key }
        ensures { result ≡ found (λ e. E.Key.rank (E.key e)) (E.Key.rank key) self.now.rows.items }
    {
        let i = self.place(key).ok()?;
        Some(self.rows[i])
    }

    // Puts a sound row at its place, over the one of its key.
    // Refused, and nothing changed, where it is new and every place is taken.
    pub fn put(&mut self, row: E) -> Result<(), Full>
        requires { E.sound row ≡ true }
        ensures after { self.new.rows.items ≡ put_in (λ e. E.Key.rank (E.key e)) N row self.old.rows.items }
        ensures fits { is_ok result ≡ nat_le (length (with_row (λ e. E.Key.rank (E.key e)) row self.old.rows.items)) N }
    {
        match self.place(row.key()) {
            Ok(i) => self.rows[i] = row,
            Err(_) if self.rows.is_full() => return Err(Full),
            Err(i) => self.rows.insert(i, row),
        }
        Ok(())
    }

    // Takes a key's row out.
    pub fn remove(&mut self, key: E::Key) -> Option<E>
        requires { E.Key.within key }
        ensures given { result ≡ found (λ e. E.Key.rank (E.key e)) (E.Key.rank key) self.old.rows.items }
        ensures after { self.new.rows.items ≡ without (λ e. E.Key.rank (E.key e)) (E.Key.rank key) self.old.rows.items }
    {
        let i = self.place(key).ok()?;
        Some(self.rows.remove(i))
    }

    // How many bytes a count byte and the rows are.
    pub fn length(&self) -> usize
        ensures { result ≡ length (listing E.bytes self.now.rows.items) }
    {
        1 + self.rows.len() * E::size()
    }

    // Writes a count byte and the rows over the first of the lent bytes, and answers how many bytes.
    pub fn write(&self, out: &mut [u8]) -> Option<usize>
        ensures laid { Laid (listing E.bytes self.now.rows.items) out.old out.new result }
        ensures refused { result ≡ None → length out.old < length (listing E.bytes self.now.rows.items) }
    {
        let size = E::size();
        let length = self.length();
        if out.len() < length {
            return None;
        }
        let rows = self.rows.as_slice();
        out[0] = rows.len() as u8;
        // `chunks_exact_mut` does not say which bytes it leaves, so the parts are cut by their places.
        let mut at = 1;
        for row in rows {
            // A part of just a row's size refuses no row.
            let _ = row.write(&mut out[at..at + size]);
            at += size;
        }
        Some(length)
    }

    // The table that a count byte and rows write; refused are bytes that no table writes.
    pub fn read(from: &[u8]) -> Option<Self>
        requires { N ≤ 255 }
        ensures { MatchOption result ((xs : List E) → length xs ≤ N → orderly (λ e. E.Key.rank (E.key e)) E.sound 0 xs ≡ true → listing E.bytes xs ≢ from.now) (λ t. listing E.bytes t.rows.items ≡ from.now) }
    {
        let rows = read_rows(from)?;
        if !in_order(&rows) {
            return None;
        }
        Some(Table { rows })
    }
}
