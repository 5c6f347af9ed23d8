// What a line of a book says, part behind part, and the number that it is refused by.
#![tactic(auto)]

ghost use Rattle.std.specs.Prelude.{◌≡◌, true, ltb, eqb};
ghost use Rattle.laws.specs.Truth.{both};
ghost use Rattle.laws.specs.Checks.{first_failing};
ghost use Rattle.laws.specs.Refusals.{number_in};
ghost use Rattle.lists.specs.Sorted.{after};
ghost use Rattle.pairing.specs.Rules.{pair_number};
ghost use Rattle.rows.specs.Rows.{holding_rank, pair_rank};
ghost use Rattle.book_lines.specs.Lines.{head, holding, checks_by};
ghost use Rattle.book_lines.specs.Facts.{letter_in, part_table, place_for, parts_count, number_item, series_item, no_item, item_behind, holding_of, pair_of, line_of, both_number, pair_number_by, number_behind};

use laws::Refusal;
use lines::{Asked, Field, Written};
use rows::{Holding, Pair};
use series::{Nature, Series};

// A part of a line's form, as the paper writes it: SERIES is one, of four fields.
#[derive(Clone, Copy, Debug, PartialEq, Eq)]
pub enum Part {
    Nothing,
    Number,
    Account,
    Mark,
    Date,
    Series,
}

// What a part of a line writes, a number or a series; whether it has its form, and the place of the tab or LF behind.
#[derive(Clone, Copy)]
pub struct Item {
    pub right: bool,
    pub number: u32,
    pub series: Series,
    pub stop: usize,
}

// The line's letter, or 0.
#[tactic(auto, using(crate::specs::LetterLaws::letter_byte))]
pub fn letter_of(t: &[u8]) -> u8
    ensures { result ≡ letter_in t.now }
{
    match t {
        b"A" => b'A',
        b"H" => b'H',
        b"M" => b'M',
        _ => 0,
    }
}

// The parts of the forms A, H and M, one form behind the other; Nothing stands between and behind them.
#[tactic(auto, unfolding(crate::specs::Facts::part_table, crate::specs::Facts::parts_for))]
pub fn parts() -> [Part; 15]
    ensures { result ≡ part_table }
{
    [
        Part::Account,
        Part::Mark,
        Part::Date,
        Part::Nothing,
        Part::Series,
        Part::Number,
        Part::Number,
        Part::Nothing,
        Part::Number,
        Part::Series,
        Part::Series,
        Part::Number,
        Part::Number,
        Part::Number,
        Part::Nothing,
    ]
}

// Where the parts of the form of the letter's line begin.
#[tactic(auto, unfolding(crate::specs::Facts::place_for))]
pub fn form_of(letter: u8) -> usize
    ensures { result ≡ place_for letter }
{
    match letter {
        b'A' => 0,
        b'H' => 4,
        b'M' => 8,
        _ => 14,
    }
}

// How many parts stand behind the letter; more than there can be where it is no letter of a book.
#[tactic(auto, unfolding(crate::specs::Facts::parts_count))]
pub fn parts_of(letter: u8) -> usize
    ensures { result ≡ parts_count letter }
{
    match letter {
        b'A' => 3,
        b'H' => 3,
        b'M' => 6,
        _ => 7,
    }
}

fn number_item(f: Field) -> Item
    ensures { result ≡ number_item f }
{
    Item {
        right: f.cell.right,
        number: f.cell.number,
        series: Series {
            code: [0; 3],
            date: 0,
            nature: Nature::Future,
        },
        stop: f.stop,
    }
}

fn series_item(w: Written) -> Item
    ensures { result ≡ series_item w }
{
    Item {
        right: w.right,
        number: 0,
        series: w.series,
        stop: w.stop,
    }
}

// The item of no part.
pub fn no_item() -> Item
    ensures { result ≡ no_item }
{
    number_item(lines::no_field())
}

// The part behind the tab at `at`.
#[tactic(auto, unfolding(crate::specs::Facts::item_behind))]
pub fn item_behind(part: Part, t: &[u8], at: usize) -> Item
    ensures { result ≡ item_behind part t.now at }
{
    match part {
        Part::Nothing => no_item(),
        Part::Number => number_item(lines::field_behind(Asked::Number, t, at)),
        Part::Account => number_item(lines::field_behind(Asked::Account, t, at)),
        Part::Mark => number_item(lines::field_behind(Asked::Mark, t, at)),
        Part::Date => number_item(lines::field_behind(Asked::Date, t, at)),
        Part::Series => series_item(lines::series_behind(t, at)),
    }
}

// What the items of an H line say.
#[tactic(auto, unfolding(crate::specs::Facts::holding_of))]
pub fn holding_of(items: [Item; 6]) -> Holding
    ensures { result ≡ holding_of items }
{
    Holding {
        series: items[0].series,
        long: items[1].number,
        short: items[2].number,
    }
}

// What the items of an M line say.
#[tactic(auto, unfolding(crate::specs::Facts::pair_of))]
pub fn pair_of(items: [Item; 6]) -> Pair
    ensures { result ≡ pair_of items }
{
    Pair {
        kind: items[0].number,
        first: items[1].series,
        second: items[2].series,
        r1: items[3].number,
        r2: items[4].number,
        units: items[5].number,
    }
}

// The checks on two series: of what refuses them the one that comes first in 4, 5, 2.
#[tactic(auto, unfolding(crate::specs::Facts::both_number))]
fn check_both(a: Series, b: Series) -> Result<(), Refusal>
    ensures { number_in result ≡ both_number a b }
{
    match (series::check(a), series::check(b)) {
        (Err(Refusal::UnknownCode), _) | (_, Err(Refusal::UnknownCode)) => {
            Err(Refusal::UnknownCode)
        }
        (Err(Refusal::NoSuchDate), _) | (_, Err(Refusal::NoSuchDate)) => Err(Refusal::NoSuchDate),
        (Err(Refusal::OutOfRange), _) | (_, Err(Refusal::OutOfRange)) => Err(Refusal::OutOfRange),
        _ => Ok(()),
    }
}

// The checks on an A line, whose account is never at fault.
#[tactic(auto, unfolding(crate::specs::Lines::checks_by, laws::specs::Checks::first_failing))]
fn check_head(identity: u32, day: u32, first: bool) -> Result<(), Refusal>
    ensures { number_in result ≡ first_failing (checks_by first true true true (head 0 identity day)) }
{
    let known = matches!(u8::try_from(identity), Ok(b'0'..=b'9' | b'A'..=b'Z'));
    laws::ensure(dates::is_day(day), Refusal::NoSuchDate)?;
    laws::ensure(known, Refusal::OutOfRange)?;
    laws::ensure(first, Refusal::OutOfOrder)
}

// Whether a holding stands in its order behind `held` holdings, the last of which is `last`, and `paired` pairs.
fn holding_follows(h: Holding, last: Holding, held: usize, paired: usize) -> bool
    ensures { result ≡ both (eqb paired 0) (after holding_rank held last h) }
{
    paired == 0 && (held == 0 || rows::compare_holdings(last, h).is_lt())
}

// The checks on an H line behind `held` holdings, the last of which is `last`, and `paired` pairs.
#[tactic(auto, using(laws::specs::RefusalLaws::or_else_refused, crate::specs::NumberLaws::holding_number_is))]
fn check_holding(
    h: Holding,
    first: bool,
    last: Holding,
    held: usize,
    paired: usize,
) -> Result<(), Refusal>
    ensures { number_in result ≡ first_failing (checks_by first (both (eqb paired 0) (after holding_rank held last h)) (ltb held 128) true (holding h)) }
{
    laws::ensure(!first, Refusal::Malformed)?;
    series::check(h.series)?;
    laws::ensure(rules::lots_good(h), Refusal::OutOfRange)?;
    laws::ensure(holding_follows(h, last, held, paired), Refusal::OutOfOrder)?;
    laws::ensure(held < 128, Refusal::BookFull)
}

// Whether a pair stands in its order behind `paired` pairs, the last of which is `last`.
fn pair_follows(p: Pair, last: Pair, paired: usize) -> bool
    ensures { result ≡ after pair_rank paired last p }
{
    paired == 0 || rows::compare_pairs(last, p).is_lt()
}

// The checks on an M line behind `paired` pairs, the last of which is `last`; `free` where its legs' lots are.
#[tactic(auto, using(laws::specs::RefusalLaws::or_else_refused))]
fn check_pair(p: Pair, first: bool, last: Pair, paired: usize, free: bool) -> Result<(), Refusal>
    ensures { number_in result ≡ pair_number_by first (after pair_rank paired last p) (ltb paired 128) free p }
{
    laws::ensure(!first, Refusal::Malformed)?;
    check_both(p.first, p.second)?;
    laws::ensure(rules::counts_fit(p.r1, p.r2, p.units), Refusal::WrongCount)?;
    pairing::check(p.kind, p.first, p.second, p.r1, p.r2)?;
    laws::ensure(pair_follows(p, last, paired), Refusal::OutOfOrder)?;
    laws::ensure(paired < 128, Refusal::PairsFull)?;
    laws::ensure(free, Refusal::NotFree)
}

// The checks on the line of letter and items: behind `held` holdings and `paired` pairs, the last of which are `last`
// and `newest`; `first` where no line is before it, `free` where the lots of its legs are.
pub fn check_line(
    letter: u8,
    items: [Item; 6],
    first: bool,
    last: Holding,
    held: usize,
    newest: Pair,
    paired: usize,
    free: bool,
) -> Result<(), Refusal>
    ensures { number_in result ≡ number_behind first last held newest paired free (line_of letter items) }
{
    match letter {
        b'A' => check_head(items[1].number, items[2].number, first),
        b'H' => check_holding(holding_of(items), first, last, held, paired),
        b'M' => check_pair(pair_of(items), first, newest, paired, free),
        _ => Err(Refusal::Malformed),
    }
}
