ghost use Rattle.std.specs.Prelude.{◌≡◌, ◌≤◌, List, length, MatchOption, ◌≢◌};
ghost use Rattle.line_operators.specs.Rows.{orderly, listing};

use super::Row;
use arrayvec::ArrayVec;

// Whether rows are sound and rise by their keys.
pub fn in_order<E: Row>(rows: &[E]) -> bool
    ensures { result ≡ orderly (λ e. E.Key.rank (E.key e)) E.sound 0 rows.now }
{
    rows.iter().all(|row| row.sound()) && rows.is_sorted_by(|a, b| a.key() < b.key())
}

// Reads a count byte and as many rows, whatever their order; refused are bytes that no N rows or fewer write.
pub fn read_rows<E: Row, const N: usize>(from: &[u8]) -> Option<ArrayVec<E, N>>
    ensures { MatchOption result ((xs : List E) → length xs ≤ N → listing E.bytes xs ≢ from.now) (λ rows. (length rows.items ≤ N) × (listing E.bytes rows.items ≡ from.now)) }
{
    let (count, tail) = from.split_first()?;
    let count = usize::from(*count);
    // Too many rows are refused before any is read.
    if count > N {
        return None;
    }
    let size = E::size();
    if tail.len() != count * size {
        return None;
    }
    let mut rows = ArrayVec::new();
    for chunk in tail.chunks_exact(size) {
        rows.try_push(E::read(chunk)?).ok()?;
    }
    Some(rows)
}
