// Q lines of options taken at once. Most lines of a sheet begin with the code and the date of the line before them:
// where the bytes are the same, only the figures behind them are read.
#![tactic(auto)]

ghost use Rattle.std.specs.Prelude.{◌≡◌, ◌+◌, ◌*◌, ◌≤◌, eqb, leb, length};
ghost use Rattle.laws.specs.Truth.{both, either, within};
ghost use Rattle.laws.specs.Text.{byte};
ghost use Rattle.price_lines.specs.Heads.{head_of, figures_of, inside_at, parted_at, headed, head_at, same_for, figures_at, next_figures, filled};

use lines::Cell;

// What stands behind the head of an option's Q line: the mark, the strike and the price; and the place of its LF.
#[derive(Clone, Copy)]
pub struct Figures {
    pub mark: u32,
    pub strike: u32,
    pub price: u32,
    pub stop: usize,
}

// A cell of a number.
pub fn number_cell(number: u32) -> Cell
    ensures { result ≡ filled number }
{
    Cell {
        right: true,
        number,
        code: [0, 0, 0],
    }
}

// Whether a head and two bytes more stand in the text from `at` on.
fn is_inside(t: &[u8], at: usize) -> bool
    ensures { result ≡ inside_at t.now at }
{
    at <= t.len() && 17 <= t.len() - at
}

// Whether Q stands at `at`, and behind it a tab, three bytes, a tab, eight bytes and a tab.
#[tactic(auto, unfolding(crate::specs::Heads::parted_at))]
fn is_parted(t: &[u8], at: usize) -> bool
    requires { at + 17 ≤ length t.now }
    ensures { result ≡ parted_at t.now at }
{
    t[at] == b'Q' && t[at + 1] == b'\t' && t[at + 5] == b'\t' && t[at + 14] == b'\t'
}

// Whether three bytes and eight of that line are the code and the date of its cells, an option and a day.
#[tactic(auto, using(laws::specs::ByteLaws::as_pointwise), unfolding(crate::specs::Heads::headed))]
fn is_headed(t: &[u8], at: usize, cells: [Cell; 12]) -> bool
    requires { at + 17 ≤ length t.now }
    ensures { result ≡ headed t.now at cells }
{
    let code = lines::code_at(t, at + 2);
    let date = lines::date_at(t, at + 6);
    let right = code.cell.right && date.cell.right;
    let placed = code.stop == at + 5 && date.stop == at + 14;
    let same = code.cell.code == cells[0].code && date.cell.number == cells[1].number;
    let option = codes::is_option_class(codes::product_of(code.cell.code).class);
    right && placed && same && option && dates::is_day(date.cell.number)
}

// The head of the line that begins at `at` and has this letter and these cells, where it is an option's Q line: a line
// that begins with the same fifteen bytes has its code and its date.
pub fn head_at(letter: u8, t: &[u8], at: usize, cells: [Cell; 12]) -> Option<usize>
    ensures { head_of result ≡ head_at letter t.now at cells }
{
    if letter == b'Q' && is_inside(t, at) && is_parted(t, at) && is_headed(t, at, cells) {
        Some(at)
    } else {
        None
    }
}

// Whether the eight bytes at two places are the same.
fn same_eight(t: &[u8], a: usize, b: usize) -> bool
    requires { (a + 8 ≤ length t.now) × (b + 8 ≤ length t.now) }
    ensures { result ≡ same_for t.now a b 8 }
{
    t[a..a + 8] == t[b..b + 8]
}

// Whether the fifteen bytes at two places are the same: eight of them, and eight more of which one is the last of those.
fn same_head(t: &[u8], a: usize, b: usize) -> bool
    requires { (a + 15 ≤ length t.now) × (b + 15 ≤ length t.now) }
    ensures { result ≡ both (same_for t.now a b 8) (same_for t.now (a + 7) (b + 7) 8) }
{
    same_eight(t, a, b) && same_eight(t, a + 7, b + 7)
}

// Whether a mark is an option's, and a strike and a price have their form and are in their ranges.
fn is_mark(mark: u8) -> bool
    ensures { result ≡ either (eqb mark (byte "C")) (eqb mark (byte "P")) }
{
    mark == b'C' || mark == b'P'
}

fn strike_fits(strike: Cell) -> bool
    ensures { result ≡ both strike.right (within 1 100000000 strike.number) }
{
    strike.right && laws::in_range(1, 100000000, strike.number)
}

fn price_fits(price: Cell) -> bool
    ensures { result ≡ both price.right (leb price.number 100000000) }
{
    price.right && price.number <= 100000000
}

// The figures of the line that begins at `at`, where they have the form and are in their ranges.
fn figures_at(t: &[u8], at: usize) -> Option<Figures>
    requires { at + 17 ≤ length t.now }
    ensures { figures_of result ≡ figures_at t.now at }
{
    let mark = t[at + 15];
    if !is_mark(mark) {
        return None;
    }
    if t[at + 16] != b'\t' {
        return None;
    }
    let strike = lines::number_at(t, at + 17);
    if !strike_fits(strike.cell) {
        return None;
    }
    if t[strike.stop] != b'\t' {
        return None;
    }
    let price = lines::number_at(t, strike.stop + 1);
    if !price_fits(price.cell) {
        return None;
    }
    if t[price.stop] != b'\n' {
        return None;
    }
    Some(Figures {
        mark: u32::from(mark),
        strike: strike.cell.number,
        price: price.cell.number,
        stop: price.stop,
    })
}

// The mark and then the strike, as one number.
fn place_of(mark: u32, strike: u32) -> u64
    ensures { result ≡ mark * 4294967296 + strike }
{
    u64::from(mark) * 4294967296 + u64::from(strike)
}

// The figures of the line that begins at `at`, where it has the head's code and date and comes after this mark and
// strike.
pub fn next_figures(
    t: &[u8],
    head: Option<usize>,
    at: usize,
    mark: u32,
    strike: u32,
) -> Option<Figures>
    ensures { figures_of result ≡ next_figures t.now (head_of head) at mark strike }
{
    let from = head?;
    if at < from {
        return None;
    }
    if !is_inside(t, at) {
        return None;
    }
    if !same_head(t, from, at) {
        return None;
    }
    let f = figures_at(t, at)?;
    if place_of(mark, strike) < place_of(f.mark, f.strike) {
        Some(f)
    } else {
        None
    }
}
