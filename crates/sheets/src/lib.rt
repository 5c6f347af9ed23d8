// The day's sheet, read into plain fields, and where each of its rows is found: F, O and S rows by place, Q rows by halving.
#![tactic(auto)]

ghost use Rattle.std.specs.Prelude.{◌≡◌, [], ◌∷◌, ℕ, ◌+◌, ◌≤◌, ◌<◌, get_or, take, replicate};
ghost use Rattle.halving.specs.Halving.{key_at, middle};
ghost use Rattle.sheets.specs.Rows.{two_capitals, nothing, found, no_index, no_stock, no_price, no_rows};
ghost use Rattle.sheets.specs.Sheet.{place_in, future_place, option_place, stock_place, nearest, row_at, row_key, price_among, filled, prices_at, laid_out};

use amounts::{IndexLine, StockLine};
use series::{Halves, Nature, Series};
use std::cmp::Ordering;

// What an F line says.
#[derive(Clone, Copy)]
pub struct FutureRow {
    pub code: [u8; 3],
    pub clearing: u32,
}

// What an O line says.
#[derive(Clone, Copy)]
pub struct OptionRow {
    pub code: [u8; 3],
    pub line: IndexLine,
}

// What an S line says: the stock's two letters, then a 0 byte.
#[derive(Clone, Copy)]
pub struct StockRow {
    pub code: [u8; 3],
    pub line: StockLine,
}

// What a Q line says.
#[derive(Clone, Copy)]
pub struct PriceRow {
    pub series: Series,
    pub price: u32,
}

// What a text reads as. Its number and line, 0 and 0 where it is a sheet; the day; the F, O and S rows, each at its code's place; the
// Q rows in order with a count.
#[derive(Clone, Copy)]
pub struct Sheet {
    pub number: u8,
    pub line: u32,
    pub day: u32,
    pub futures: [Option<u32>; 8],
    pub options: [IndexLine; 4],
    pub stocks: [StockLine; 676],
    pub prices: [PriceRow; 1024],
    pub quoted: usize,
}

#[tactic(auto, unfolding(crate::specs::Rows::no_index))]
fn no_index() -> IndexLine
    ensures { result ≡ no_index }
{
    let zero = levels::same_at_all(0);
    IndexLine {
        multiplier: 0,
        a: zero,
        b: zero,
        c: zero,
        underlying: 0,
    }
}

#[tactic(auto, unfolding(crate::specs::Rows::no_stock))]
pub fn no_stock() -> StockLine
    ensures { result ≡ no_stock }
{
    StockLine {
        shares: 0,
        future: 0,
        option: 0,
        c: levels::same_at_all(0),
        disposition: 0,
        price: 0,
    }
}

fn no_price() -> PriceRow
    ensures { result ≡ no_price }
{
    PriceRow {
        series: Series {
            code: [0; 3],
            date: 0,
            nature: Nature::Future,
        },
        price: 0,
    }
}

// A sheet of no rows, which a refused text reads as.
pub fn empty_sheet(number: u8, line: u32) -> Sheet
    ensures { result ≡ laid_out number line no_rows }
{
    Sheet {
        number,
        line,
        day: 0,
        futures: [None; 8],
        options: [no_index(); 4],
        stocks: [no_stock(); 676],
        prices: [no_price(); 1024],
        quoted: 0,
    }
}

// How many codes stand before this one; all of them where it is none of them.
fn place_in(codes: &[[u8; 3]], code: [u8; 3]) -> usize
    ensures { result ≡ place_in codes.now code }
{
    codes.iter().position(|c| code == *c).unwrap_or(codes.len())
}

// The place of a code among the eight that have a clearing margin; 8 where it has none.
#[tactic(auto, unfolding(crate::specs::Sheet::future_place, crate::specs::Rows::future_codes))]
pub fn future_place(code: [u8; 3]) -> usize
    ensures { result ≡ future_place code }
{
    place_in(&FUTURES, code)
}

const FUTURES: [[u8; 3]; 8] = [
    *b"TX\0", *b"TE\0", *b"TF\0", *b"TGF", *b"UNF", *b"SXF", *b"GTF", *b"G2F",
];

// The place of a code among the four listed options; 4 where it is none.
#[tactic(auto, unfolding(crate::specs::Sheet::option_place, crate::specs::Rows::option_codes))]
pub fn option_place(code: [u8; 3]) -> usize
    ensures { result ≡ option_place code }
{
    place_in(&OPTIONS, code)
}

const OPTIONS: [[u8; 3]; 4] = [*b"TXO", *b"TEO", *b"TFO", *b"TGO"];

// Whether a code is two capitals.
#[tactic(auto, unfolding(crate::specs::Rows::two_capitals))]
pub fn two_capitals(code: [u8; 3]) -> bool
    ensures { result ≡ two_capitals code }
{
    codes::names_stock(code) && code[2] == 0
}

// The place of a stock by its two capitals; 676 where a code is no stock's.
pub fn stock_place(code: [u8; 3]) -> usize
    ensures { result ≡ stock_place code }
{
    if !two_capitals(code) {
        return 676;
    }
    (code[0] - b'A') as usize * 26 + (code[1] - b'A') as usize
}

// A place of S rows that there is: this one, or the last where there is no such place.
pub fn nearest_place(place: usize) -> usize
    ensures { result ≡ nearest place }
{
    place.min(675)
}

// What stands at a place, of the row that is nearest to it.
pub fn stock_at(place: usize, row: StockLine) -> StockLine
    ensures { result ≡ row_at place row }
{
    if place < 676 { row } else { no_stock() }
}

// The price of the series with this key among rows, by halving.
pub fn price_of(rows: &[PriceRow], key: Halves) -> Option<u32>
    ensures { result ≡ price_among rows.now (key.high ∷ key.low ∷ []) }
{
    let mut low: usize = 0;
    let mut high = rows.len();
    while low < high {
        let mid = low + (high - low) / 2;
        let k = series::halves_of(rows[mid].series);
        match (k.high, k.low).cmp(&(key.high, key.low)) {
            Ordering::Less => low = mid + 1,
            Ordering::Equal => return Some(rows[mid].price),
            Ordering::Greater => high = mid,
        }
    }
    None
}

// The key at a place.
fn key_at<'a>(highs: &'a [u64], lows: &'a [u64], i: usize) -> Halves
    ensures { result ≡ record { high = get_or highs.now i 0; low = get_or lows.now i 0 } }
{
    Halves {
        high: half_at(highs, i),
        low: half_at(lows, i),
    }
}

fn half_at(halves: &[u64], i: usize) -> u64
    ensures { result ≡ get_or halves.now i 0 }
{
    halves.get(i).copied().unwrap_or(0)
}

// The prices of the first `held` keys, at most 128, among the first `count` rows.
pub fn prices_of<'a>(
    rows: [PriceRow; 1024],
    count: usize,
    highs: &'a [u64],
    lows: &'a [u64],
    held: usize,
) -> [Option<u32>; 128]
    ensures { result ≡ prices_at rows count highs.now lows.now held }
{
    let lent = &rows[..count.min(1024)];
    let mut all = [None; 128];
    for i in 0..held.min(128) {
        all[i] = price_of(lent, key_at(highs, lows, i));
    }
    all
}

// What the F rows say of a code, and the O rows.
pub fn clearing_of(futures: [Option<u32>; 8], code: [u8; 3]) -> Option<u32>
    ensures { result ≡ get_or futures (future_place code) nothing }
{
    futures.get(future_place(code)).copied().unwrap_or(None)
}

pub fn index_of(options: [IndexLine; 4], code: [u8; 3]) -> IndexLine
    ensures { result ≡ get_or options (option_place code) no_index }
{
    options
        .get(option_place(code))
        .copied()
        .unwrap_or(no_index())
}
