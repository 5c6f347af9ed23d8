// The book's types: holdings, pairs, the book; rows of nothing, the order of rows, and what the two kinds of row have in common.
#![tactic(auto)]

ghost use Rattle.std.specs.Prelude.{◌≡◌, ◌-◌, Bool, List, ℕ};
ghost use Rattle.laws.specs.Order.{bytes_order};
ghost use Rattle.rows.specs.Rows.{holding_rank, pair_rank, same_series, new_holding, new_pair, new_of, no_lots, no_units, lots_on, lessened, empty_series, empty_holding, empty_pair, is_empty_holding, is_empty_pair};
ghost use Rattle.rows.specs.Book.{empty_book};

use series::{Nature, Series, Side};
use std::cmp::Ordering;

// A series with its long and short totals.
#[derive(Clone, Copy, Debug, PartialEq, Eq)]
pub struct Holding {
    pub series: Series,
    pub long: u32,
    pub short: u32,
}

// A kind, two series, the lots per unit of each, and units.
#[derive(Clone, Copy, Debug, PartialEq, Eq)]
pub struct Pair {
    pub kind: u32,
    pub first: Series,
    pub second: Series,
    pub r1: u32,
    pub r2: u32,
    pub units: u32,
}

// The first `held` holdings and the first `paired` pairs are live; the room behind them is empty.
#[derive(Clone, Copy)]
pub struct Book {
    pub account: u32,
    pub identity: u8,
    pub day: u32,
    pub holdings: [Holding; 128],
    pub held: usize,
    pub pairs: [Pair; 128],
    pub paired: usize,
}

// What holdings and pairs have in common: they stand in the order of their ranks, a row of which nothing is left gives up its place, and
// empty rows fill the room behind the live ones.
pub trait Row: Copy {
    ghost rank: { Self → List ℕ };

    ghost gone: { Self → Bool };

    ghost nothing: { Self → Self };

    ghost empty: { Self };

    ghost is_empty: { Self → Bool };

    fn compare(&self, other: &Self) -> Ordering
        ensures { result ≡ bytes_order (rank self.now) (rank other.now) };

    // Whether nothing is left of the row.
    fn is_gone(&self) -> bool
        ensures { result ≡ gone self.now };

    // A row of the same rank, of which nothing is left.
    fn nothing(&self) -> Self
        ensures { result ≡ nothing self.now };

    fn empty() -> Self
        ensures { result ≡ empty };

    fn is_empty(&self) -> bool
        ensures { result ≡ is_empty self.now };
}

impl Row for Holding {
    ghost rank = { holding_rank };

    ghost gone = { no_lots };

    ghost nothing = { λ h. new_holding h.series };

    ghost empty = { empty_holding };

    ghost is_empty = { is_empty_holding };

    fn compare(&self, other: &Holding) -> Ordering {
        compare_holdings(*self, *other)
    }

    fn is_gone(&self) -> bool {
        no_lots(*self)
    }

    fn nothing(&self) -> Holding {
        new_holding(self.series)
    }

    fn empty() -> Holding {
        empty_holding()
    }

    fn is_empty(&self) -> bool {
        is_empty_holding(*self)
    }
}

impl Row for Pair {
    ghost rank = { pair_rank };

    ghost gone = { no_units };

    ghost nothing = { new_of };

    ghost empty = { empty_pair };

    ghost is_empty = { is_empty_pair };

    // By kind, first series, second series, r1, r2.
    #[tactic(auto, using(crate::specs::RowLaws::pair_order), unfolding(crate::specs::RowLaws::rest_order, laws::specs::Order::order_of))]
    fn compare(&self, other: &Pair) -> Ordering {
        self.kind
            .cmp(&other.kind)
            .then_with(|| series::compare(self.first, other.first))
            .then_with(|| series::compare(self.second, other.second))
            .then_with(|| self.r1.cmp(&other.r1).then(self.r2.cmp(&other.r2)))
    }

    fn is_gone(&self) -> bool {
        no_units(*self)
    }

    fn nothing(&self) -> Pair {
        new_pair(self.kind, self.first, self.second, self.r1, self.r2)
    }

    fn empty() -> Pair {
        empty_pair()
    }

    fn is_empty(&self) -> bool {
        is_empty_pair(*self)
    }
}

pub fn new_holding(series: Series) -> Holding
    ensures { result ≡ new_holding series }
{
    Holding {
        series,
        long: 0,
        short: 0,
    }
}

pub fn new_pair(kind: u32, first: Series, second: Series, r1: u32, r2: u32) -> Pair
    ensures { result ≡ new_pair kind first second r1 r2 }
{
    Pair {
        kind,
        first,
        second,
        r1,
        r2,
        units: 0,
    }
}

fn empty_series() -> Series
    ensures { result ≡ empty_series }
{
    Series {
        code: [0; 3],
        date: 0,
        nature: Nature::Future,
    }
}

#[tactic(auto, unfolding(crate::specs::Rows::empty_holding))]
pub fn empty_holding() -> Holding
    ensures { result ≡ empty_holding }
{
    new_holding(empty_series())
}

#[tactic(auto, unfolding(crate::specs::Rows::empty_pair))]
pub fn empty_pair() -> Pair
    ensures { result ≡ empty_pair }
{
    new_pair(0, empty_series(), empty_series(), 0, 0)
}

// A book without rows: both arrays are filled by repeat of an empty row.
#[tactic(auto, unfolding(crate::specs::Book::empty_book, crate::specs::Book::book_of, lists::specs::Places::full))]
pub fn empty_book(account: u32, identity: u8, day: u32) -> Book
    ensures { result ≡ empty_book account identity day }
{
    Book {
        account,
        identity,
        day,
        holdings: [empty_holding(); 128],
        held: 0,
        pairs: [empty_pair(); 128],
        paired: 0,
    }
}

pub fn no_lots(h: Holding) -> bool
    ensures { result ≡ no_lots h }
{
    h.long == 0 && h.short == 0
}

pub fn no_units(p: Pair) -> bool
    ensures { result ≡ no_units p }
{
    p.units == 0
}

#[tactic(auto, using(laws::specs::ByteLaws::as_pointwise), unfolding(crate::specs::Rows::is_empty_holding, crate::specs::Rows::is_empty_series, crate::specs::Rows::empty_holding))]
pub fn is_empty_holding(h: Holding) -> bool
    ensures { result ≡ is_empty_holding h }
{
    h == empty_holding()
}

#[tactic(auto, using(laws::specs::ByteLaws::as_pointwise), unfolding(crate::specs::Rows::is_empty_pair, crate::specs::Rows::is_empty_series, crate::specs::Rows::empty_pair))]
pub fn is_empty_pair(p: Pair) -> bool
    ensures { result ≡ is_empty_pair p }
{
    p == empty_pair()
}

// The lots of one side.
pub fn lots_on(side: Side, h: Holding) -> u32
    ensures { result ≡ lots_on side h }
{
    match side {
        Side::Long => h.long,
        Side::Short => h.short,
    }
}

// A holding with fewer lots on one side, at least 0.
pub fn lessen(side: Side, lots: u32, h: Holding) -> Holding
    ensures { result ≡ lessened side lots h }
{
    match side {
        Side::Long => Holding {
            long: h.long.saturating_sub(lots),
            ..h
        },
        Side::Short => Holding {
            short: h.short.saturating_sub(lots),
            ..h
        },
    }
}

// Whether two series are one.
#[tactic(auto, using(crate::specs::RowLaws::same_by_order))]
pub fn same_series(a: Series, b: Series) -> bool
    ensures { result ≡ same_series a b }
{
    series::compare(a, b).is_eq()
}

// The order of two holdings, which is that of their series.
#[tactic(auto, using(crate::specs::RowLaws::rank_order), unfolding(crate::specs::Rows::holding_rank))]
pub fn compare_holdings(h: Holding, k: Holding) -> Ordering
    ensures { result ≡ bytes_order (holding_rank h) (holding_rank k) }
{
    series::compare(h.series, k.series)
}

// The order of two pairs.
pub fn compare_pairs(p: Pair, q: Pair) -> Ordering
    ensures { result ≡ bytes_order (pair_rank p) (pair_rank q) }
{
    p.compare(&q)
}
