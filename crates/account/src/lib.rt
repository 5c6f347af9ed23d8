// The account's margin: a book and a day's sheet, both handed in; three amounts, or the number and line of a refusal.
#![tactic(auto)]

ghost use Rattle.std.specs.Prelude.{◌≡◌, true, false, ℕ, ◌≤◌, ◌<◌};
ghost use Rattle.levels.specs.Levels.{flat};
ghost use Rattle.levels.specs.Ranges.{AtMost};
ghost use Rattle.sound.specs.Walk.{no_row, Keyed};
ghost use Rattle.sheets.specs.View.{sheet_view};
ghost use Rattle.account.specs.Needed.{charged_lots};
ghost use Rattle.account.specs.Margin.{times, plus, margin_on};
ghost use Rattle.account.specs.Walk.{Priced, QuotesAre, all_below, sum_below, part_as, part_of, row_limit, holding_ready, holding_comes, pair_ready, pair_comes, ready_at, comes_at, pair_ready_at, pair_comes_at, PairStands};

use laws::Refusal;
use levels::Levels;
use quotes::Quote;
use rows::{Book, Holding, Pair};
use sheets::Sheet;

// The three amounts, or the number and line of a refusal and zeros.
#[derive(Clone, Copy)]
pub struct Margin {
    pub number: u8,
    pub line: u32,
    pub levels: Levels,
}

fn refused(number: u8, line: u32) -> Margin
    ensures { result ≡ record { number = number; line = line; levels = flat 0 } }
{
    Margin {
        number,
        line,
        levels: levels::same_at_all(0),
    }
}

// So many times an amount, and the sum of two, at each level.
fn multiply(n: u64, l: Levels) -> Levels
    requires { AtMost row_limit (times n l) }
    ensures { result ≡ times n l }
{
    Levels {
        clearing: l.clearing * n,
        maintenance: l.maintenance * n,
        initial: l.initial * n,
    }
}

fn add(l: Levels, m: Levels) -> Levels
    requires { AtMost 1000000000000000000 l × AtMost 1000000000000000000 m }
    ensures { result ≡ plus l m }
{
    Levels {
        clearing: l.clearing + m.clearing,
        maintenance: l.maintenance + m.maintenance,
        initial: l.initial + m.initial,
    }
}

// What the sheet, and the price that was found for it, say of the series of each of the first `held` rows.
fn quotes_of(
    rows: [Holding; 128],
    held: usize,
    sheet: Sheet,
    prices: [Option<u32>; 128],
) -> [Quote; 128]
    requires { (held ≤ 128) × Priced (sheet_view sheet) rows held prices }
    ensures { QuotesAre (sheet_view sheet) rows held result }
{
    let mut quotes = [quotes::no_quote(); 128];
    for i in 0..held {
        let s = rows[i].series;
        let product = codes::product_of(s.code);
        let clearing = sheets::clearing_of(sheet.futures, product.parent);
        let index = sheets::index_of(sheet.options, s.code);
        let at = sheets::stock_place(product.parent);
        let stock = sheets::stock_at(at, sheet.stocks[sheets::nearest_place(at)]);
        quotes[i] = quotes::quote_for(product, s, clearing, index, stock, prices[i]);
    }
    quotes
}

// What the sheet says of the series of each of the first `held` rows, whose keys these are, half by half.
fn quote_rows(
    rows: [Holding; 128],
    held: usize,
    sheet: Sheet,
    highs: [u64; 128],
    lows: [u64; 128],
) -> [Quote; 128]
    requires { (held ≤ 128) × Keyed no_row rows held highs lows }
    ensures { QuotesAre (sheet_view sheet) rows held result }
{
    let prices = sheets::prices_of(sheet.prices, sheet.quoted, &highs, &lows, held);
    quotes_of(rows, held, sheet, prices)
}

// Free futures of both sides, free options of the short side.
#[tactic(auto, unfolding(crate::specs::Needed::charged_lots))]
fn charged_lots(h: Holding) -> u64
    ensures { result ≡ charged_lots h }
{
    if series::is_future(h.series.nature) {
        u64::from(h.long) + u64::from(h.short)
    } else {
        u64::from(h.short)
    }
}

// Whether the lines that a holding's free lots need are there, and what it comes to.
#[tactic(auto, unfolding(crate::specs::Walk::holding_ready))]
fn holding_ready(h: Holding, q: Quote) -> bool
    ensures { result ≡ holding_ready h q }
{
    charged_lots(h) == 0 || q.ready
}

#[tactic(auto, unfolding(crate::specs::Walk::holding_comes))]
fn holding_comes(h: Holding, q: Quote) -> Levels
    requires { AtMost row_limit (holding_comes h q) }
    ensures { result ≡ holding_comes h q }
{
    multiply(charged_lots(h), q.lot.margin)
}

// The sum over the holdings' free lots.
fn holdings_margin(rows: [Holding; 128], held: usize, quotes: [Quote; 128]) -> Option<Levels>
    requires { (held ≤ 128) × ((i : ℕ) → i < held → AtMost row_limit (comes_at rows quotes i)) }
    ensures { part_as result ≡ part_of (all_below (ready_at rows quotes) held) (sum_below (comes_at rows quotes) held) }
{
    let mut sum = levels::same_at_all(0);
    for i in 0..held {
        let h = rows[i];
        let q = quotes[i];
        if !holding_ready(h, q) {
            return None;
        }
        sum = add(sum, holding_comes(h, q));
    }
    Some(sum)
}

// Whether the lines that a pair needs are there, and what it comes to.
#[tactic(auto, unfolding(crate::specs::Walk::pair_ready, laws::specs::Kinds::by_kind))]
fn pair_ready(kind: u32, first: Quote, second: Quote) -> bool
    ensures { result ≡ pair_ready kind first second }
{
    match kind {
        1 | 2 => first.lined,
        3 => first.ready && second.ready && second.timed,
        4 | 5 | 7 | 8 => first.ready && second.ready,
        6 => second.ready,
        _ => true,
    }
}

fn pair_comes(charged: bool, p: Pair, first: Quote, second: Quote) -> Levels
    requires { AtMost row_limit (pair_comes charged p first second) }
    ensures { result ≡ pair_comes charged p first second }
{
    let a = first.lot;
    let b = second.lot;
    let terms = second.terms;
    let unit = units::unit_margin(p.kind, a, b, terms, p.r1, p.r2, charged);
    let margin = unit.unwrap_or(levels::same_at_all(0));
    multiply(p.units as u64, margin)
}

// The sum over the pairs, with the rows of their legs.
fn pairs_margin(
    charged: bool,
    pairs: [Pair; 128],
    paired: usize,
    quotes: [Quote; 128],
    firsts: [usize; 128],
    seconds: [usize; 128],
) -> Option<Levels>
    requires { (paired ≤ 128) × ((j : ℕ) → j < paired → PairStands quotes firsts seconds pairs charged j) }
    ensures { part_as result ≡ part_of (all_below (pair_ready_at quotes firsts seconds pairs) paired) (sum_below (pair_comes_at quotes firsts seconds pairs charged) paired) }
{
    let mut sum = levels::same_at_all(0);
    for j in 0..paired {
        let p = pairs[j];
        let first = quotes[firsts[j]];
        let second = quotes[seconds[j]];
        if !pair_ready(p.kind, first, second) {
            return None;
        }
        sum = add(sum, pair_comes(charged, p, first, second));
    }
    Some(sum)
}

// The margin of a book on a sheet that was read.
pub fn margin_on(b: Book, sheet: Sheet) -> Margin
    ensures { result ≡ margin_on b sheet }
{
    let w = sound::walked_book(b);
    if !w.sound {
        return refused(Refusal::NotSound.number(), 0);
    }
    if sheet.number != 0 {
        return refused(sheet.number, sheet.line);
    }
    if sheet.day != b.day {
        return refused(Refusal::WrongDay.number(), 0);
    }
    let quotes = quote_rows(b.holdings, b.held, sheet, w.highs, w.lows);
    let Some(loose) = holdings_margin(w.free, b.held, quotes) else {
        return refused(Refusal::LineMissing.number(), 0);
    };
    let Some(tied) = pairs_margin(true, b.pairs, b.paired, quotes, w.firsts, w.seconds) else {
        return refused(Refusal::LineMissing.number(), 0);
    };
    let levels = add(loose, tied);
    Margin {
        number: 0,
        line: 0,
        levels,
    }
}
