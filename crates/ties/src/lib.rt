// Pair and split. Each answers with the book that results, or with the refusal of the first check that fails.
#![tactic(auto)]

ghost use Rattle.std.specs.Prelude.{◌≡◌, ◌*◌, leb, ltb, not, take};
ghost use Rattle.laws.specs.Truth.{either};
ghost use Rattle.laws.specs.Checks.{first_failing};
ghost use Rattle.laws.specs.Refusals.{number_in};
ghost use Rattle.lists.specs.Sorted.{kept};
ghost use Rattle.lists.specs.Kept.{Keeping};
ghost use Rattle.rows.specs.Rows.{pair_rank, no_units, lots_on, with_units, empty_pair};
ghost use Rattle.rows.specs.Book.{pairs_of, with_pairs, pair_in};
ghost use Rattle.calls.specs.Outcome.{outcome_in};
ghost use Rattle.calls.specs.Calls.{pairing_checks, joined, pair_answer, split_checks, parted, split_answer};
ghost use Rattle.calls.specs.Facts.{Pairs, Splits};

use laws::Refusal;
use rows::{Book, Holding, Pair};
use series::Side;

// The book with the pair in its place, or with its place given up where no units are left.
fn keep_pair(b: Book, p: Pair) -> Book
    requires { Keeping empty_pair pair_rank b.paired b.pairs p }
    ensures { result ≡ with_pairs b (kept pair_rank no_units p (pairs_of b)) }
{
    let mut c = b;
    c.paired = places::keep(&mut c.pairs, b.paired, p);
    c
}

fn with_units(units: u32, p: Pair) -> Pair
    ensures { result ≡ with_units units p }
{
    Pair { units, ..p }
}

// Whether a leg of r lots a unit finds its lots among the free ones. The product is worked in 64 bits, where every ratio and every
// number of units fit.
fn leg_free(r: u32, units: u32, side: Side, h: Holding) -> bool
    ensures { result ≡ leb (r * units) (lots_on side h) }
{
    r as u64 * units as u64 <= rows::lots_on(side, h) as u64
}

// Whether there is room for a pair: it stands, or a row is empty.
fn has_room(pairs: [Pair; 128], paired: usize, p: Pair) -> bool
    ensures { result ≡ either (not (no_units (pair_in (take paired pairs) p))) (ltb paired 128) }
{
    let q = places::pair_in(pairs, paired, p);
    !rows::no_units(q) || paired < 128
}

#[tactic(auto, using(calls::specs::NumberLaws::pair_says))]
fn pair_check(b: Book, p: Pair) -> Result<(), Refusal>
    ensures { number_in result ≡ first_failing (pairing_checks b p) }
{
    let c = sound::checked_book(b);
    laws::ensure(c.sound, Refusal::NotSound)?;
    series::check(p.first)?;
    series::check(p.second)?;
    laws::ensure(rules::counts_fit(p.r1, p.r2, p.units), Refusal::WrongCount)?;
    pairing::check(p.kind, p.first, p.second, p.r1, p.r2)?;
    let free = c.free;
    let s = p.first;
    let t = p.second;
    let h = places::holding_in(free, b.held, s);
    let k = places::holding_in(free, b.held, t);
    let first = leg_free(p.r1, p.units, pairing::first_side(p.kind, t), h);
    let second = leg_free(p.r2, p.units, pairing::second_side(p.kind), k);
    let room = has_room(b.pairs, b.paired, p);
    laws::ensure(first && second, Refusal::NotFree)?;
    laws::ensure(room, Refusal::PairsFull)
}

fn pair_book(b: Book, p: Pair) -> Book
    requires { Pairs b p }
    ensures { result ≡ joined b p }
{
    let pairs = b.pairs;
    let q = places::pair_in(pairs, b.paired, p);
    keep_pair(b, with_units(q.units + p.units, p))
}

// Pair free lots: units of a kind, two series and a ratio. What stands of it gains units.
#[tactic(auto, using(calls::proofs::AnswerLaws::pair_refused, calls::proofs::AnswerLaws::pair_pairs, calls::proofs::AnswerLaws::pair_accepted))]
pub fn pair(b: Book, p: Pair) -> Result<Book, Refusal>
    ensures { outcome_in b result ≡ pair_answer b p }
{
    pair_check(b, p)?;
    Ok(pair_book(b, p))
}

#[tactic(auto, using(calls::specs::NumberLaws::split_says), unfolding(rows::specs::Book::pairs_of))]
fn split_check(b: Book, p: Pair) -> Result<(), Refusal>
    ensures { number_in result ≡ first_failing (split_checks b p) }
{
    laws::ensure(sound::is_sound(b), Refusal::NotSound)?;
    series::check(p.first)?;
    series::check(p.second)?;
    laws::ensure(rules::counts_fit(p.r1, p.r2, p.units), Refusal::WrongCount)?;
    let pairs = b.pairs;
    let q = places::pair_in(pairs, b.paired, p);
    laws::ensure(p.units <= q.units, Refusal::NoSuchPair)
}

fn split_book(b: Book, p: Pair) -> Book
    requires { Splits b p }
    ensures { result ≡ parted b p }
{
    let pairs = b.pairs;
    let q = places::pair_in(pairs, b.paired, p);
    keep_pair(b, with_units(q.units - p.units, p))
}

// Split units that stand: their lots are free again.
#[tactic(auto, using(calls::proofs::AnswerLaws::split_refused, calls::proofs::AnswerLaws::split_splits, calls::proofs::AnswerLaws::split_accepted))]
pub fn split(b: Book, p: Pair) -> Result<Book, Refusal>
    ensures { outcome_in b result ≡ split_answer b p }
{
    split_check(b, p)?;
    Ok(split_book(b, p))
}
