// A line of a sheet: its letter, what is asked of the fields behind it, the row that they say, and the number that the
// line is refused by behind the line before it.
#![tactic(auto)]

ghost use Rattle.std.specs.Prelude.{◌≡◌};
ghost use Rattle.laws.specs.Order.{is_less, bytes_order};
ghost use Rattle.laws.specs.Checks.{first_failing};
ghost use Rattle.laws.specs.Refusals.{number_in};
ghost use Rattle.sheet_lines.specs.Lines.{letter_in, head, future, option, stock, price, future_from, option_from, stock_from, price_from, said, rank, is_quoted, own_checks};
ghost use Rattle.sheet_lines.specs.Facts.{asked_table, place_for, fields_for, group_for, number_for};

use amounts::{IndexLine, StockLine};
use codes::Class;
use laws::Refusal;
use levels::Levels;
use lines::{Asked, Cell};
use sheets::{FutureRow, OptionRow, PriceRow, StockRow};

// The line's letter, or 0.
#[tactic(auto, unfolding(crate::specs::Lines::letter_in))]
pub fn letter_of(t: &[u8]) -> u8
    ensures { result ≡ letter_in t.now }
{
    if lines::same_text(t, b"D") {
        b'D'
    } else if lines::same_text(t, b"F") {
        b'F'
    } else if lines::same_text(t, b"O") {
        b'O'
    } else if lines::same_text(t, b"S") {
        b'S'
    } else if lines::same_text(t, b"Q") {
        b'Q'
    } else {
        0
    }
}

// What the forms D, F, O, S and Q ask of their fields, one form behind the other; Nothing stands between and behind
// them.
#[tactic(auto, unfolding(crate::specs::Facts::asked_table, crate::specs::Lines::head_form, crate::specs::Lines::future_form, crate::specs::Lines::option_form, crate::specs::Lines::stock_form, crate::specs::Lines::price_form))]
pub fn asked_table() -> [Asked; 34]
    ensures { result ≡ asked_table }
{
    ASKED
}

const ASKED: [Asked; 34] = [
    Asked::Date,
    Asked::Nothing,
    Asked::Code,
    Asked::Number,
    Asked::Nothing,
    Asked::Code,
    Asked::Number,
    Asked::Number,
    Asked::Number,
    Asked::Number,
    Asked::Number,
    Asked::Number,
    Asked::Number,
    Asked::Number,
    Asked::Number,
    Asked::Number,
    Asked::Number,
    Asked::Nothing,
    Asked::Code,
    Asked::Number,
    Asked::Number,
    Asked::Number,
    Asked::Number,
    Asked::Number,
    Asked::Number,
    Asked::Number,
    Asked::Number,
    Asked::Nothing,
    Asked::Code,
    Asked::Date,
    Asked::Mark,
    Asked::Number,
    Asked::Number,
    Asked::Nothing,
];

// Where in that table the form of the letter's line begins.
#[tactic(auto, unfolding(crate::specs::Facts::place_for))]
pub fn form_of(letter: u8) -> usize
    ensures { result ≡ place_for letter }
{
    match letter {
        b'D' => 0,
        b'F' => 2,
        b'O' => 5,
        b'S' => 18,
        b'Q' => 28,
        _ => 33,
    }
}

// How many fields stand behind the letter; more than there can be where it is no letter of a sheet.
#[tactic(auto, unfolding(crate::specs::Facts::fields_for))]
pub fn fields_of(letter: u8) -> usize
    ensures { result ≡ fields_for letter }
{
    match letter {
        b'D' => 1,
        b'F' => 2,
        b'O' => 12,
        b'S' => 9,
        b'Q' => 5,
        _ => 13,
    }
}

// The letter's group, from 1; 0 where it is no letter of a sheet.
#[tactic(auto, unfolding(crate::specs::Facts::group_for))]
fn group_of(letter: u8) -> u64
    ensures { result ≡ group_for letter }
{
    match letter {
        b'D' => 1,
        b'F' => 2,
        b'O' => 3,
        b'S' => 4,
        b'Q' => 5,
        _ => 0,
    }
}

// What the cells of each line say.
fn levels_of(clearing: Cell, maintenance: Cell, initial: Cell) -> Levels
    ensures { result ≡ record { clearing = clearing.number; maintenance = maintenance.number; initial = initial.number } }
{
    Levels {
        clearing: u64::from(clearing.number),
        maintenance: u64::from(maintenance.number),
        initial: u64::from(initial.number),
    }
}

#[tactic(auto, unfolding(crate::specs::Lines::future_from))]
pub fn future_row(cells: [Cell; 12]) -> FutureRow
    ensures { result ≡ future_from cells }
{
    FutureRow {
        code: cells[0].code,
        clearing: cells[1].number,
    }
}

#[tactic(auto, unfolding(crate::specs::Lines::option_from))]
pub fn option_row(cells: [Cell; 12]) -> OptionRow
    ensures { result ≡ option_from cells }
{
    OptionRow {
        code: cells[0].code,
        line: IndexLine {
            multiplier: cells[1].number,
            a: levels_of(cells[2], cells[3], cells[4]),
            b: levels_of(cells[5], cells[6], cells[7]),
            c: levels_of(cells[8], cells[9], cells[10]),
            underlying: cells[11].number,
        },
    }
}

#[tactic(auto, unfolding(crate::specs::Lines::stock_from))]
pub fn stock_row(cells: [Cell; 12]) -> StockRow
    ensures { result ≡ stock_from cells }
{
    StockRow {
        code: cells[0].code,
        line: StockLine {
            shares: cells[1].number,
            future: cells[2].number,
            option: cells[3].number,
            c: levels_of(cells[4], cells[5], cells[6]),
            disposition: cells[7].number,
            price: cells[8].number,
        },
    }
}

#[tactic(auto, unfolding(crate::specs::Lines::price_from))]
pub fn price_row(cells: [Cell; 12]) -> PriceRow
    ensures { result ≡ price_from cells }
{
    PriceRow {
        series: lines::series_of(cells[0], cells[1], cells[2], cells[3]),
        price: cells[4].number,
    }
}

// The checks on a line of each letter, wherever it stands.
#[tactic(auto, unfolding(laws::specs::Checks::first_failing, crate::specs::Lines::own_checks))]
fn check_head(day: u32) -> Result<(), Refusal>
    ensures { number_in result ≡ first_failing (own_checks (head day)) }
{
    laws::ensure(dates::is_day(day), Refusal::NoSuchDate)
}

#[tactic(auto, unfolding(laws::specs::Checks::first_failing, crate::specs::Lines::own_checks, sheets::specs::Sheet::future_place, sheets::specs::Rows::future_codes))]
fn check_future(row: FutureRow) -> Result<(), Refusal>
    ensures { number_in result ≡ first_failing (own_checks (future row)) }
{
    laws::ensure(sheets::future_place(row.code) < 8, Refusal::UnknownCode)?;
    laws::ensure(levels::clearing_fits(row.clearing), Refusal::OutOfRange)
}

#[tactic(auto, unfolding(laws::specs::Checks::first_failing, crate::specs::Lines::own_checks, sheets::specs::Sheet::option_place, sheets::specs::Rows::option_codes))]
fn check_option(row: OptionRow) -> Result<(), Refusal>
    ensures { number_in result ≡ first_failing (own_checks (option row)) }
{
    laws::ensure(sheets::option_place(row.code) < 4, Refusal::UnknownCode)?;
    laws::ensure(amounts::index_fits(row.line), Refusal::OutOfRange)
}

#[tactic(auto, unfolding(laws::specs::Checks::first_failing, crate::specs::Lines::own_checks))]
fn check_stock(row: StockRow) -> Result<(), Refusal>
    ensures { number_in result ≡ first_failing (own_checks (stock row)) }
{
    laws::ensure(sheets::two_capitals(row.code), Refusal::UnknownCode)?;
    laws::ensure(amounts::stock_fits(row.line), Refusal::OutOfRange)
}

// Whether a code of this class has Q lines: any option or stock future.
fn is_quoted(class: Class) -> bool
    ensures { result ≡ is_quoted class }
{
    codes::is_option_class(class) || codes::is_stock_future(class)
}

#[tactic(auto, unfolding(laws::specs::Checks::first_failing, crate::specs::Lines::own_checks, series::specs::Checks::class_of))]
fn check_price(row: PriceRow) -> Result<(), Refusal>
    ensures { number_in result ≡ first_failing (own_checks (price row)) }
{
    let class = codes::product_of(row.series.code).class;
    laws::ensure(is_quoted(class), Refusal::UnknownCode)?;
    laws::ensure(dates::is_day(row.series.date), Refusal::NoSuchDate)?;
    let fits = series::nature_suits(class, row.series.nature) && row.price <= 100000000;
    laws::ensure(fits, Refusal::OutOfRange)
}

#[tactic(auto, unfolding(laws::specs::Checks::first_failing, crate::specs::Lines::own_checks, crate::specs::Lines::said))]
fn check_own(letter: u8, cells: [Cell; 12]) -> Result<(), Refusal>
    ensures { number_in result ≡ first_failing (own_checks (said letter cells)) }
{
    match letter {
        b'D' => check_head(cells[0].number),
        b'F' => check_future(future_row(cells)),
        b'O' => check_option(option_row(cells)),
        b'S' => check_stock(stock_row(cells)),
        b'Q' => check_price(price_row(cells)),
        _ => Err(Refusal::Malformed),
    }
}

// Whether a line comes after another in the order of lines.
fn is_after(last: u8, before: [Cell; 12], letter: u8, cells: [Cell; 12]) -> bool
    ensures { result ≡ is_less (bytes_order (rank (said last before)) (rank (said letter cells))) }
{
    let above = group_of(last);
    let group = group_of(letter);
    if above != group {
        return above < group;
    }
    if group <= 1 {
        return false;
    }
    if group == 5 {
        return series::compare(price_row(before).series, price_row(cells).series).is_lt();
    }
    before[0].code.cmp(&cells[0].code).is_lt()
}

// The checks on a line of the form; `last` and `before` are the letter and the cells of the line before it, or 0.
#[tactic(auto, using(crate::specs::NumberLaws::number_steps, laws::specs::RefusalLaws::or_else_refused))]
pub fn check(letter: u8, cells: [Cell; 12], last: u8, before: [Cell; 12]) -> Result<(), Refusal>
    ensures { number_in result ≡ number_for letter cells last before }
{
    laws::ensure(last != 0 || letter == b'D', Refusal::Malformed)?;
    check_own(letter, cells)?;
    laws::ensure(is_after(last, before, letter, cells), Refusal::OutOfOrder)
}
