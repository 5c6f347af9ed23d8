// What one unit of a pair costs: a formula for each of the eight kinds.
#![tactic(auto)]

ghost use Rattle.std.specs.Prelude.{◌≡◌, ◌+◌, ◌*◌, ◌≤◌, max};
ghost use Rattle.laws.specs.Truth.{within};
ghost use Rattle.laws.specs.Refusals.{number_in};
ghost use Rattle.levels.specs.Each.{AtEach, AtBoth, AtThree};
ghost use Rattle.levels.specs.Levels.{answer_of, both_levels};
ghost use Rattle.levels.specs.Ranges.{AtMost};
ghost use Rattle.amounts.specs.Limits.{lot_limit, premium_limit, c_limit};
ghost use Rattle.amounts.specs.ValueLimits.{price_limit};
ghost use Rattle.units.specs.Facts.{LotFacts, UnitFacts};
ghost use Rattle.units.specs.Units.{credit_margin, time_margin, lower_premium, mixed_at, mixed_margin, c_charged, future_option_margin, formula, unit_number, unit_margin};

use amounts::{Lot, Terms};
use laws::Refusal;
use levels::Levels;
use std::cmp::Ordering;

// What f makes of each level. Private, with the next one, as in levels: public ones would ask of their caller that f may be called, and no
// public function asks anything of its caller.
fn at_each<F: Fn(u64) -> u64>(l: Levels, f: F) -> Levels
    requires { AtEach (F.pre f) l }
    ensures { AtBoth (F.post f) l result }
{
    Levels {
        clearing: f(l.clearing),
        maintenance: f(l.maintenance),
        initial: f(l.initial),
    }
}

// What f makes of the two at each level.
fn at_both<F: Fn(u64, u64) -> u64>(l: Levels, m: Levels, f: F) -> Levels
    requires { AtBoth (F.pre f) l m }
    ensures { AtThree (F.post f) l m result }
{
    Levels {
        clearing: f(l.clearing, m.clearing),
        maintenance: f(l.maintenance, m.maintenance),
        initial: f(l.initial, m.initial),
    }
}

// A side of a ratio: 1 to 100.
fn ratio_fits(n: u32) -> bool
    ensures { result ≡ within 1 100 n }
{
    (1..=100).contains(&n)
}

// One of the eight kinds.
fn is_kind(n: u32) -> bool
    ensures { result ≡ within 1 8 n }
{
    (1..=8).contains(&n)
}

// The checks on a unit: its lots, its terms, its ratio, its kind.
#[tactic(auto, unfolding(crate::specs::Units::unit_number, crate::specs::Units::unit_checks, laws::specs::Checks::first_failing))]
fn check(kind: u32, first: Lot, second: Lot, terms: Terms, r1: u32, r2: u32) -> Result<(), Refusal>
    ensures { number_in result ≡ unit_number kind first second terms r1 r2 }
{
    laws::ensure(amounts::lot_fits(first), Refusal::OutOfRange)?;
    laws::ensure(amounts::lot_fits(second), Refusal::OutOfRange)?;
    laws::ensure(amounts::terms_fit(terms), Refusal::OutOfRange)?;
    laws::ensure(ratio_fits(r1), Refusal::WrongCount)?;
    laws::ensure(ratio_fits(r2), Refusal::WrongCount)?;
    laws::ensure(is_kind(kind), Refusal::NotAllowed)
}

// Kind 2: strike difference x multiplier.
#[tactic(auto, unfolding(crate::specs::Units::credit_margin, amounts::specs::Singles::premium_value))]
fn credit_margin(k1: u32, k2: u32, multiplier: u32) -> Levels
    ensures { result ≡ credit_margin k1 k2 multiplier }
{
    levels::same_at_all(amounts::premium_value(k1.abs_diff(k2), multiplier))
}

// Kind 3: the larger of the tenth and twice the premium difference x multiplier.
#[tactic(auto, using(crate::specs::LimitLaws::twice_worth), unfolding(crate::specs::Units::time_margin, amounts::specs::Singles::premium_value))]
fn time_margin(tenth: u64, p1: u32, p2: u32, multiplier: u32) -> Levels
    requires { (p1 ≤ price_limit) × (p2 ≤ price_limit) }
    ensures { result ≡ time_margin tenth p1 p2 multiplier }
{
    let twice = amounts::premium_value(2 * p1.abs_diff(p2), multiplier);
    levels::same_at_all(tenth.max(twice))
}

// The premium value of the side with the lower margin; where they are equal, the larger premium value.
#[tactic(auto, unfolding(crate::specs::Units::lower_premium))]
fn lower_premium(m1: u64, v1: u64, m2: u64, v2: u64) -> u64
    ensures { (result ≡ lower_premium m1 v1 m2 v2) × (result ≤ max v1 v2) }
{
    match m1.cmp(&m2) {
        Ordering::Less => v1,
        Ordering::Equal => v1.max(v2),
        Ordering::Greater => v2,
    }
}

// Kind 4 at one level, without C.
#[tactic(auto, unfolding(crate::specs::Units::mixed_at))]
fn mixed_at(m1: u64, v1: u64, m2: u64, v2: u64) -> u64
    requires { ((m1 ≤ lot_limit) × (v1 ≤ premium_limit)) × ((m2 ≤ lot_limit) × (v2 ≤ premium_limit)) }
    ensures { (result ≡ mixed_at m1 v1 m2 v2) × (result ≤ lot_limit + premium_limit) }
{
    m1.max(m2) + lower_premium(m1, v1, m2, v2)
}

// C, where it is charged.
fn c_charged(charged: bool, c: Levels) -> Levels
    ensures { result ≡ c_charged charged c }
{
    if charged { c } else { levels::same_at_all(0) }
}

// Kind 4: short call, then short put, level by level.
#[tactic(auto, unfolding(crate::specs::Units::mixed_margin))]
fn mixed_margin(call: Lot, put: Lot, c: Levels) -> Levels
    requires { LotFacts call × (LotFacts put × AtMost c_limit c) }
    ensures { result ≡ mixed_margin call put c }
{
    let mixed = at_both(
        call.margin,
        put.margin,
        |m, n| mixed_at(m, call.premium, n, put.premium),
    );
    at_both(mixed, c, |m, c| m + c)
}

// Kind 5: r1 futures margins and r2 premium values, level by level.
#[tactic(auto, unfolding(crate::specs::Units::future_option_margin))]
fn future_option_margin(r1: u32, margin: Levels, r2: u32, premium: u64) -> Levels
    requires { ((r1 ≤ 100) × AtMost lot_limit margin) × ((r2 ≤ 100) × (premium ≤ premium_limit)) }
    ensures { result ≡ future_option_margin r1 margin r2 premium }
{
    at_each(margin, |m| r1 as u64 * m + r2 as u64 * premium)
}

// The larger of two margins, level by level.
fn larger_of(l: Levels, m: Levels) -> Levels
    ensures { result ≡ both_levels max l m }
{
    at_both(l, m, |x, y| x.max(y))
}

// The formula of the kind.
#[tactic(auto, using(crate::specs::LimitLaws::charged_most), unfolding(crate::specs::Units::formula, crate::specs::Units::debit_margin, crate::specs::Units::conversion_margin, crate::specs::Units::calendar_margin, crate::specs::Units::products_margin, laws::specs::Kinds::by_kind))]
fn formula_of(
    kind: u32,
    first: Lot,
    second: Lot,
    terms: Terms,
    r1: u32,
    r2: u32,
    charged: bool,
) -> Levels
    requires { UnitFacts first second terms r1 r2 }
    ensures { result ≡ formula kind first second terms r1 r2 charged }
{
    let m = first.margin;
    let n = second.margin;
    match kind {
        1 => levels::same_at_all(0),
        2 => credit_margin(first.strike, second.strike, terms.multiplier),
        3 => time_margin(terms.tenth, first.price, second.price, terms.multiplier),
        4 => mixed_margin(first, second, c_charged(charged, terms.c)),
        5 => future_option_margin(r1, m, r2, second.premium),
        6 => n,
        7 => larger_of(m, n),
        8 => larger_of(m, n),
        _ => levels::same_at_all(0),
    }
}

// The margin of one unit of a pair, from its two lots; `charged` says whether the client pays C.
#[tactic(auto, using(crate::specs::LimitLaws::unit_is), unfolding(crate::specs::Units::unit_margin))]
pub fn unit_margin(
    kind: u32,
    first: Lot,
    second: Lot,
    terms: Terms,
    r1: u32,
    r2: u32,
    charged: bool,
) -> Result<Levels, Refusal>
    ensures { answer_of result ≡ unit_margin kind first second terms r1 r2 charged }
{
    check(kind, first, second, terms, r1, r2)?;
    Ok(formula_of(kind, first, second, terms, r1, r2, charged))
}
