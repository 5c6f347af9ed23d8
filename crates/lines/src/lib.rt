// Lines and fields: where a line or a field ends, what stands in a field, and the series that four fields write.
#![tactic(auto)]

ghost use Rattle.std.specs.Prelude.{◌≡◌, ◌≤◌, ◌<◌, length, get_or, drop};
ghost use Rattle.laws.specs.Bytes.{same_bytes};
ghost use Rattle.digits.specs.Digits.{is_fixed};
ghost use Rattle.lines.specs.declared.Asked.TheVariants.{Number, Account, Date, Code, Mark};
ghost use Rattle.lines.specs.Pieces.{next_of, stops, stop_of, stops_at};
ghost use Rattle.lines.specs.Fields.{code_in, mark_in, no_cell, no_field, number_field, field_at, figure_at, nature_of, series_of};
ghost use Rattle.lines.specs.Behind.{field_behind, chain_behind, series_form, written_in};
ghost use Rattle.lines.specs.RunLaws.{RunIs};

use series::{Nature, Series};

// What the form of a line asks of a field.
#[derive(Clone, Copy, Debug, PartialEq, Eq)]
pub enum Asked {
    Nothing,
    Number,
    Account,
    Date,
    Code,
    Mark,
}

// What stands in a field: whether it has its form, its number, its code.
#[derive(Clone, Copy)]
pub struct Cell {
    pub right: bool,
    pub number: u32,
    pub code: [u8; 3],
}

// A field in a text: what stands in it, and the place of the tab or LF behind it.
#[derive(Clone, Copy)]
pub struct Field {
    pub cell: Cell,
    pub stop: usize,
}

// The series that four fields of a text write, whether they have their form, and the place of the tab or LF behind them.
#[derive(Clone, Copy)]
pub struct Written {
    pub right: bool,
    pub series: Series,
    pub stop: usize,
}

// Digits in a text: the number that they write, and the place behind them.
#[derive(Clone, Copy)]
struct Run {
    number: u32,
    stop: usize,
}

// What stands from `at` on: nothing where the text ends before.
fn rest_from(t: &[u8], at: usize) -> &[u8]
    ensures { result.now ≡ drop at t.now }
{
    t.get(at..).unwrap_or(&[])
}

// The place of the first b from `at` on, or the end of the text.
pub fn next(t: &[u8], at: usize, b: u8) -> usize
    ensures { result ≡ next_of t.now at b }
{
    let rest = rest_from(t, at);
    let length = rest.iter().position(|x| *x == b);
    at + length.unwrap_or(rest.len())
}

// Whether a text is the other one, byte by byte.
#[tactic(auto, using(laws::specs::ByteLaws::as_pointwise))]
pub fn same_text(t: &[u8], name: &[u8]) -> bool
    ensures { result ≡ same_bytes t.now name.now }
{
    t == name
}

#[tactic(auto, unfolding(crate::specs::Fields::code_in))]
fn code_in(t: &[u8]) -> [u8; 3]
    ensures { result ≡ code_in t.now }
{
    match t {
        [a, b] => [*a, *b, 0],
        [a, b, c] if *c != 0 => [*a, *b, *c],
        _ => [0; 3],
    }
}

#[tactic(auto, unfolding(crate::specs::Fields::mark_in))]
fn mark_in(t: &[u8]) -> u32
    ensures { result ≡ mark_in t.now }
{
    match t {
        [b] => u32::from(*b),
        _ => 0,
    }
}

// What stands in a field of which nothing is asked.
#[tactic(auto, unfolding(crate::specs::Fields::cell_of))]
pub fn no_cell() -> Cell
    ensures { result ≡ no_cell }
{
    Cell {
        right: false,
        number: 0,
        code: [0; 3],
    }
}

// A tab or LF.
fn ends_field(b: u8) -> bool
    ensures { result ≡ stops b }
{
    matches!(b, b'\t' | b'\n')
}

// The place of the first tab or LF from `at` on, or the end of the text.
pub fn stop_of(t: &[u8], at: usize) -> usize
    ensures { result ≡ stop_of t.now at }
{
    let rest = rest_from(t, at);
    let length = rest.iter().position(|b| ends_field(*b));
    at + length.unwrap_or(rest.len())
}

// Whether a tab or LF stands at i.
#[tactic(auto, unfolding(crate::specs::Pieces::stops_at))]
fn stops_at(t: &[u8], i: usize) -> bool
    ensures { result ≡ stops_at t.now i }
{
    i < t.len() && ends_field(t[i])
}

// No field.
#[tactic(auto, unfolding(crate::specs::Fields::cell_of))]
pub fn no_field() -> Field
    ensures { result ≡ no_field }
{
    Field {
        cell: no_cell(),
        stop: 0,
    }
}

fn number_field(number: u32, stop: usize) -> Field
    ensures { result ≡ number_field number stop }
{
    Field {
        cell: Cell {
            right: true,
            number,
            code: [0; 3],
        },
        stop,
    }
}

// The digits from `from` on, at most so many.
fn run_at(t: &[u8], from: usize, most: usize) -> Run
    requires { (from ≤ length t.now) × (most ≤ 9) }
    ensures { RunIs t.now from most result.number result.stop }
{
    let end = t.len().min(from + most);
    let mut number = 0;
    for stop in from..end {
        if !t[stop].is_ascii_digit() {
            return Run { number, stop };
        }
        number = number * 10 + u32::from(t[stop] - b'0');
    }
    Run { number, stop: end }
}

// The number field that begins at `from`, if it has its form and a tab or LF stands behind it; so the other fields.
pub fn number_at(t: &[u8], from: usize) -> Field
    ensures { result ≡ field_at Number t.now from }
{
    if t.len() < from {
        return no_field();
    }
    let Run { number, stop } = run_at(t, from, 9);
    if !stops_at(t, stop) {
        return no_field();
    }
    if stop == from {
        return no_field();
    }
    if stop - from == 1 {
        return number_field(number, stop);
    }
    if t[from] == b'0' {
        return no_field();
    }
    number_field(number, stop)
}

fn fixed_at(t: &[u8], from: usize, width: usize) -> Field
    requires { width ≤ 9 }
    ensures { result ≡ figure_at (is_fixed width) t.now from }
{
    if t.len() < from {
        return no_field();
    }
    let Run { number, stop } = run_at(t, from, width);
    if !stops_at(t, stop) {
        return no_field();
    }
    if stop - from != width {
        return no_field();
    }
    number_field(number, stop)
}

#[tactic(auto, unfolding(crate::specs::Fields::field_at, crate::specs::Fields::cell_of))]
fn account_at(t: &[u8], from: usize) -> Field
    ensures { result ≡ field_at Account t.now from }
{
    fixed_at(t, from, 7)
}

#[tactic(auto, unfolding(crate::specs::Fields::field_at, crate::specs::Fields::cell_of))]
pub fn date_at(t: &[u8], from: usize) -> Field
    ensures { result ≡ field_at Date t.now from }
{
    fixed_at(t, from, 8)
}

pub fn code_at(t: &[u8], from: usize) -> Field
    ensures { result ≡ field_at Code t.now from }
{
    let stop = stop_of(t, from);
    if t.len() <= stop {
        return no_field();
    }
    Field {
        cell: Cell {
            right: true,
            number: 0,
            code: code_in(&t[from..stop]),
        },
        stop,
    }
}

fn mark_at(t: &[u8], from: usize) -> Field
    ensures { result ≡ field_at Mark t.now from }
{
    let stop = stop_of(t, from);
    if t.len() <= stop {
        return no_field();
    }
    number_field(mark_in(&t[from..stop]), stop)
}

#[tactic(auto, unfolding(crate::specs::Fields::nature_of))]
fn nature_of(mark: u32, strike: u32) -> Nature
    ensures { result ≡ nature_of mark strike }
{
    match (u8::try_from(mark), strike) {
        (Ok(b'C'), _) => Nature::Call(strike),
        (Ok(b'P'), _) => Nature::Put(strike),
        (Ok(b'F'), 0) => Nature::Future,
        _ => Nature::Call(0),
    }
}

// The series that a code, a date, a nature and a strike write.
#[tactic(auto, unfolding(crate::specs::Fields::series_of))]
pub fn series_of(code: Cell, date: Cell, mark: Cell, strike: Cell) -> Series
    ensures { result ≡ series_of code date mark strike }
{
    let letters = code.code;
    Series {
        code: letters,
        date: date.number,
        nature: nature_of(mark.number, strike.number),
    }
}

// The field that begins at `from`, of which this is asked.
#[tactic(auto, using(crate::specs::RunLaws::field_nothing), unfolding(crate::specs::Fields::field_at, crate::specs::Fields::cell_of))]
pub fn field_at(asked: Asked, t: &[u8], from: usize) -> Field
    ensures { result ≡ field_at asked t.now from }
{
    match asked {
        Asked::Nothing => no_field(),
        Asked::Number => number_at(t, from),
        Asked::Account => account_at(t, from),
        Asked::Date => date_at(t, from),
        Asked::Code => code_at(t, from),
        Asked::Mark => mark_at(t, from),
    }
}

// The field behind the tab at `at`, of which this is asked.
#[tactic(auto, unfolding(crate::specs::Behind::field_behind))]
pub fn field_behind(asked: Asked, t: &[u8], at: usize) -> Field
    ensures { result ≡ field_behind asked t.now at }
{
    match t.get(at) {
        Some(b'\t') => field_at(asked, t, at + 1),
        _ => no_field(),
    }
}

// The series that the four fields behind the tab at `at` write.
#[tactic(auto, unfolding(crate::specs::Behind::chain_behind, crate::specs::Behind::series_form, crate::specs::Behind::written_in))]
pub fn series_behind(t: &[u8], at: usize) -> Written
    ensures { result ≡ written_in (chain_behind series_form t.now at) }
{
    let code = field_behind(Asked::Code, t, at);
    let date = field_behind(Asked::Date, t, code.stop);
    let mark = field_behind(Asked::Mark, t, date.stop);
    let strike = field_behind(Asked::Number, t, mark.stop);
    Written {
        right: code.cell.right && date.cell.right && mark.cell.right && strike.cell.right,
        series: series_of(code.cell, date.cell, mark.cell, strike.cell),
        stop: strike.stop,
    }
}
