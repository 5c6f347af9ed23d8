// What a sheet says of one series, worked out once: whether the lines that it needs are there, one lot, and what its pairs use.
#![tactic(auto)]

ghost use Rattle.std.specs.Prelude.{◌≡◌, true, false, unwrap_or};
ghost use Rattle.laws.specs.Truth.{pick, both};
ghost use Rattle.series.specs.Natures.{is_call, strike_of};
ghost use Rattle.amounts.specs.Lines.{index_fits, stock_fits};
ghost use Rattle.amounts.specs.Lots.{refused_lot, fixed_future, stock_future, index_option, stock_option, index_terms, stock_terms};
ghost use Rattle.sheets.specs.View.{saying};
ghost use Rattle.quotes.specs.Quotes.{by_class, clearing_stands, price_stands, no_terms, no_quote, quote_as};

use amounts::{IndexLine, Lot, StockLine, Terms};
use codes::{Class, Product};
use laws::Refusal;
use series::{Nature, Series};

// Whether the line of its own (F, O or S) is on the sheet, whether all lines are that a lot needs, and whether the one is that an index
// time spread needs beside them; the lot, and the terms of its pairs.
#[derive(Clone, Copy, Default)]
pub struct Quote {
    pub lined: bool,
    pub ready: bool,
    pub timed: bool,
    pub lot: Lot,
    pub terms: Terms,
}

// Whether an amount is one that an F line may hold, and a price one that a Q line may hold.
fn clearing_stands(f: Option<u32>) -> bool
    ensures { result ≡ clearing_stands f }
{
    f.is_some_and(|amount| levels::clearing_fits(amount))
}

fn price_stands(f: Option<u32>) -> bool
    ensures { result ≡ price_stands f }
{
    f.is_some_and(|price| price <= 100000000)
}

// The amount, or 0 where it does not stand.
fn amount_said(stands: bool, f: Option<u32>) -> u32
    ensures { result ≡ pick stands (unwrap_or f 0) 0 }
{
    if stands { f.unwrap_or(0) } else { 0 }
}

// What the pairs of futures use: nothing.
#[tactic(auto, unfolding(crate::specs::Quotes::no_terms))]
fn no_terms() -> Terms
    ensures { result ≡ no_terms }
{
    Terms::default()
}

// Whether the line of a series' own is on the sheet: F, O or S by its class.
fn own_line(class: Class, clearing: Option<u32>, index: IndexLine, stock: StockLine) -> bool
    ensures { result ≡ by_class class false (clearing_stands clearing) (index_fits index) (stock_fits stock) (stock_fits stock) }
{
    match class {
        Class::Unknown => false,
        Class::ListedFuture => clearing_stands(clearing),
        Class::ListedOption => amounts::index_fits(index),
        Class::StockFuture | Class::StockOption => amounts::stock_fits(stock),
    }
}

// Whether all lines are there that a lot needs: that of its own, and the Q line unless none is needed.
fn is_ready(lined: bool, class: Class, price: Option<u32>) -> bool
    ensures { result ≡ both lined (by_class class true true (price_stands price) (price_stands price) (price_stands price)) }
{
    lined && (matches!(class, Class::Unknown | Class::ListedFuture) || price_stands(price))
}

// Whether the F line of an index option's parent future is on the sheet.
fn has_parent(class: Class, clearing: Option<u32>) -> bool
    ensures { result ≡ by_class class true true (clearing_stands clearing) true true }
{
    class != Class::ListedOption || clearing_stands(clearing)
}

// No lot of an unknown code: a value outside its range.
fn no_lot() -> Lot
    ensures { result ≡ refused_lot }
{
    Lot {
        number: Refusal::OutOfRange.number(),
        ..Lot::default()
    }
}

// One lot of a future, or one short lot of an option.
fn lot_of(
    class: Class,
    part: u32,
    nature: Nature,
    clearing: u32,
    index: IndexLine,
    stock: StockLine,
    price: u32,
) -> Lot
    ensures { result ≡ by_class class refused_lot (fixed_future clearing part) (index_option index (is_call nature) (strike_of nature) price) (stock_future stock price) (stock_option stock (is_call nature) (strike_of nature) price) }
{
    let call = series::is_call(nature);
    let strike = series::strike_of(nature);
    match class {
        Class::Unknown => no_lot(),
        Class::ListedFuture => amounts::fixed_future(clearing, part),
        Class::ListedOption => amounts::index_option(index, call, strike, price),
        Class::StockFuture => amounts::stock_future(stock, price),
        Class::StockOption => amounts::stock_option(stock, call, strike, price),
    }
}

// What the pairs of an option use.
fn terms_of(class: Class, clearing: u32, index: IndexLine, stock: StockLine) -> Terms
    ensures { result ≡ by_class class no_terms no_terms (index_terms index clearing) no_terms (stock_terms stock) }
{
    match class {
        Class::ListedOption => amounts::index_terms(index, clearing),
        Class::StockOption => amounts::stock_terms(stock),
        _ => no_terms(),
    }
}

// A series of this product, from what a sheet says of its parent future, its option code, its stock and its price.
pub fn quote_for(
    product: Product,
    s: Series,
    clearing: Option<u32>,
    index: IndexLine,
    stock: StockLine,
    price: Option<u32>,
) -> Quote
    ensures { result ≡ quote_as (saying clearing index stock price) product s }
{
    let class = product.class;
    let amount = amount_said(clearing_stands(clearing), clearing);
    let value = amount_said(price_stands(price), price);
    let lined = own_line(class, clearing, index, stock);
    Quote {
        lined,
        ready: is_ready(lined, class, price),
        timed: has_parent(class, clearing),
        lot: lot_of(class, product.part, s.nature, amount, index, stock, value),
        terms: terms_of(class, amount, index, stock),
    }
}

// Zeros: what fills a row that no sheet was asked of.
#[tactic(auto, unfolding(crate::specs::Quotes::no_quote, crate::specs::Quotes::no_terms))]
pub fn no_quote() -> Quote
    ensures { result ≡ no_quote }
{
    Quote::default()
}
