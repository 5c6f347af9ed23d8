// Rows in their arrays, over any kind of row: looked up, found, put in, taken out, set, kept.
#![tactic(auto)]

ghost use Rattle.std.specs.Prelude.{◌≡◌, [], ◌∷◌, ◌++◌, length, take, set};
ghost use Rattle.lists.specs.Places.{insert_at, remove_at};
ghost use Rattle.lists.specs.Slots.{slot_of};
ghost use Rattle.lists.specs.Sorted.{look};
ghost use Rattle.lists.specs.Kept.{kept_rows, kept_count};
ghost use Rattle.rows.specs.Book.{holding_in, pair_in};

use rows::{Holding, Pair, Row};
use series::Series;
use std::cmp::Ordering;

// The live rows, which are the first ones.
fn live_rows<R>(rows: &[R], live: usize) -> &[R]
    ensures { result.now ≡ take live rows.now }
{
    &rows[..live.min(rows.len())]
}

// The row of the rank of `row` among the first `live` rows, or one of that rank of which nothing is left.
pub fn row_in<R: Row>(rows: &[R], live: usize, row: R) -> R
    ensures { result ≡ look R.rank (R.nothing row) (R.rank row) (take live rows.now) }
{
    live_rows(rows, live)
        .iter()
        .find(|r| r.compare(&row).is_eq())
        .copied()
        .unwrap_or(row.nothing())
}

// The holding of a series among the first `held` rows, or a row of no lots.
#[tactic(auto, unfolding(rows::specs::Book::holding_in, rows::specs::Rows::holding_rank))]
pub fn holding_in(rows: [Holding; 128], held: usize, s: Series) -> Holding
    ensures { result ≡ holding_in (take held rows) s }
{
    row_in(&rows, held, rows::new_holding(s))
}

// The pair of the same kind, series, series and ratio as `p` among the first `paired` rows, or a row of no units.
#[tactic(auto, unfolding(rows::specs::Book::pair_in))]
pub fn pair_in(rows: [Pair; 128], paired: usize, p: Pair) -> Pair
    ensures { result ≡ pair_in (take paired rows) p }
{
    row_in(&rows, paired, p)
}

// Where a row of the rank of `row` stands among the first `live` rows, or before which row it would stand.
pub fn find<R: Row>(rows: &[R], live: usize, row: R) -> Result<usize, usize>
    ensures { result ≡ slot_of R.rank (R.rank row) (take live rows.now) }
{
    let lives = live_rows(rows, live);
    for (i, r) in lives.iter().enumerate() {
        match r.compare(&row) {
            Ordering::Less => {}
            Ordering::Equal => return Ok(i),
            Ordering::Greater => return Err(i),
        }
    }
    Err(lives.len())
}

// The rows with one more before the row `at`, and the last row gone.
pub fn insert<R: Row>(rows: &mut [R], at: usize, row: R)
    ensures { rows.new ≡ take (length rows.old) (insert_at at row rows.old) }
{
    let mut carry = row;
    for i in at..rows.len() {
        let next = rows[i];
        rows[i] = carry;
        carry = next;
    }
}

// The rows without the row `at`, and an empty row behind them.
pub fn remove<R: Row>(rows: &mut [R], at: usize)
    ensures { rows.new ≡ take (length rows.old) (remove_at at (rows.old ++ R.empty ∷ [])) }
{
    let mut carry = R::empty();
    for i in (at..rows.len()).rev() {
        let next = rows[i];
        rows[i] = carry;
        carry = next;
    }
}

// The rows with another for the row `at`.
pub fn set<R: Row>(rows: &mut [R], at: usize, row: R)
    ensures { rows.new ≡ set rows.old at row }
{
    if at < rows.len() {
        rows[at] = row;
    }
}

// The rows with the row in its place, or with its place given up where nothing is left of it; answers how many are live then.
#[tactic(auto, unfolding(lists::specs::Kept::kept_rows, lists::specs::Kept::kept_count))]
pub fn keep<R: Row>(rows: &mut [R], live: usize, row: R) -> usize
    ensures { (result ≡ kept_count R.gone live rows.old row (slot_of R.rank (R.rank row) (take live rows.old)))
        × (rows.new ≡ kept_rows R.gone live rows.old row R.empty (slot_of R.rank (R.rank row) (take live rows.old))) }
{
    match find(rows, live, row) {
        Ok(at) if row.is_gone() => {
            remove(rows, at);
            live - 1
        }
        Ok(at) => {
            set(rows, at, row);
            live
        }
        Err(at) if !row.is_gone() && live < rows.len() => {
            insert(rows, at, row);
            live + 1
        }
        Err(_) => live,
    }
}
