// Which pairs may stand: the rule of each kind, and the sides of a pair's legs.
#![tactic(auto)]

ghost use Rattle.std.specs.Prelude.{◌≡◌};
ghost use Rattle.pairing.specs.Rules.{rule, future_with_option, between_products, no_rule, parts_of, pair_checks, pair_number, may_stand};
ghost use Rattle.pairing.specs.Sides.{first_side, second_side};
ghost use Rattle.legs.specs.Legs.{same_code, same_nature, one_to_one};
ghost use Rattle.laws.specs.Checks.{all_pass};
ghost use Rattle.laws.specs.Refusals.{number_in};

use laws::Refusal;
use series::{Series, Side};

// Which parts of its kind's rule a pair meets.
#[derive(Clone, Copy)]
pub struct Parts {
    pub kind: bool,
    pub codes: bool,
    pub natures: bool,
    pub dates: bool,
    pub strikes: bool,
    pub ratio: bool,
}

fn rule_of(codes: bool, natures: bool, dates: bool, strikes: bool, ratio: bool) -> Parts
    ensures { result ≡ rule codes natures dates strikes ratio }
{
    Parts {
        kind: true,
        codes,
        natures,
        dates,
        strikes,
        ratio,
    }
}

// A kind that is not 1 to 8.
fn no_rule() -> Parts
    ensures { result ≡ no_rule }
{
    Parts {
        kind: false,
        codes: false,
        natures: false,
        dates: false,
        strikes: false,
        ratio: false,
    }
}

// Kind 5: the two codes select the ratios that are allowed.
#[tactic(auto, unfolding(crate::specs::Rules::future_with_option))]
fn future_with_option(future: Series, option: Series, r1: u32, r2: u32) -> Parts
    ensures { result ≡ future_with_option future option r1 r2 }
{
    let allowed = legs::allowed_of(future.code, option.code);
    rule_of(
        legs::is_couple(allowed),
        legs::future_then_option(future, option),
        true,
        true,
        legs::fits_ratio(allowed, r1, r2),
    )
}

// A kind that asks for one code, and for one lot to one.
fn one_code(
    a: Series,
    b: Series,
    natures: bool,
    dates: bool,
    strikes: bool,
    r1: u32,
    r2: u32,
) -> Parts
    ensures { result ≡ rule (same_code a b) natures dates strikes (one_to_one r1 r2) }
{
    rule_of(
        legs::same_codes(a, b),
        natures,
        dates,
        strikes,
        legs::one_to_one(r1, r2),
    )
}

// A kind that asks for one nature too.
fn one_nature(a: Series, b: Series, dates: bool, strikes: bool, r1: u32, r2: u32) -> Parts
    ensures { result ≡ rule (same_code a b) (same_nature a b) dates strikes (one_to_one r1 r2) }
{
    one_code(a, b, legs::same_natures(a, b), dates, strikes, r1, r2)
}

// Kind 8: futures of two products.
#[tactic(auto, unfolding(crate::specs::Rules::between_products))]
fn two_products(a: Series, b: Series, r1: u32, r2: u32) -> Parts
    ensures { result ≡ between_products a b r1 r2 }
{
    rule_of(
        legs::are_two_products(a, b),
        legs::both_futures(a, b),
        true,
        true,
        legs::one_to_one(r1, r2),
    )
}

// Which parts of its kind's rule a pair meets: codes, natures, dates, strikes, ratio.
#[tactic(auto, unfolding(crate::specs::Rules::parts_of, laws::specs::Kinds::by_kind, crate::specs::Rules::debit_vertical, crate::specs::Rules::credit_vertical, crate::specs::Rules::time_spread, crate::specs::Rules::two_short, crate::specs::Rules::conversion, crate::specs::Rules::calendar))]
pub fn parts_of(kind: u32, a: Series, b: Series, r1: u32, r2: u32) -> Parts
    ensures { result ≡ parts_of kind a b r1 r2 }
{
    match kind {
        1 => one_nature(a, b, a.date == b.date, legs::debit_strikes(a, b), r1, r2),
        2 => one_nature(a, b, a.date == b.date, legs::debit_strikes(b, a), r1, r2),
        3 => one_nature(a, b, b.date < a.date, true, r1, r2),
        4 => one_code(a, b, legs::call_then_put(a, b), true, true, r1, r2),
        5 => future_with_option(a, b, r1, r2),
        6 => one_code(a, b, legs::one_call_one_put(a, b), true, true, r1, r2),
        7 => one_code(
            a,
            b,
            legs::both_futures(a, b),
            a.date != b.date,
            true,
            r1,
            r2,
        ),
        8 => two_products(a, b, r1, r2),
        _ => no_rule(),
    }
}

// Whether a pair meets every part of its kind's rule.
#[tactic(auto, unfolding(crate::specs::Rules::pair_checks, laws::specs::Checks::all_pass), using(laws::specs::TruthLaws::both_end))]
fn meets_all(p: Parts) -> bool
    ensures { result ≡ all_pass (pair_checks p) }
{
    p.kind && p.codes && p.natures && p.dates && p.strikes && p.ratio
}

// Whether a pair may stand.
#[tactic(auto, unfolding(crate::specs::Rules::may_stand))]
pub fn may_stand(kind: u32, a: Series, b: Series, r1: u32, r2: u32) -> bool
    ensures { result ≡ may_stand kind a b r1 r2 }
{
    meets_all(parts_of(kind, a, b, r1, r2))
}

// The check of a pair: its kind's rule.
#[tactic(auto, using(crate::specs::PairLaws::number_by_standing))]
pub fn check(kind: u32, a: Series, b: Series, r1: u32, r2: u32) -> Result<(), Refusal>
    ensures { number_in result ≡ pair_number kind a b r1 r2 }
{
    laws::ensure(may_stand(kind, a, b, r1, r2), Refusal::NotAllowed)
}

// The side of a pair's first leg.
#[tactic(auto, unfolding(crate::specs::Sides::first_side))]
pub fn first_side(kind: u32, second: Series) -> Side
    ensures { result ≡ first_side kind second }
{
    match kind {
        4 => Side::Short,
        5 if series::is_put(second.nature) => Side::Short,
        _ => Side::Long,
    }
}

// The side of a pair's second leg.
#[tactic(auto, unfolding(crate::specs::Sides::second_side))]
pub fn second_side(kind: u32) -> Side
    ensures { result ≡ second_side kind }
{
    Side::Short
}
