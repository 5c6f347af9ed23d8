// What the rules of pairs ask of two legs; and the ratios of kind 5: how many lots of a future go with how many of an option.
#![tactic(auto)]

ghost use Rattle.std.specs.Prelude.{◌≡◌};
ghost use Rattle.legs.specs.Legs.{same_code, couple, two_products, same_nature, call_then_put, one_call_one_put, future_then_option, both_futures, debit_strikes, one_to_one};
ghost use Rattle.legs.specs.Ratios.{names, line_allows, own_allows, allowed_of, is_couple, fits_ratio};

use series::Series;

// What kind 5 allows of two codes: r1 of the future to a least and a greatest r2 of the option.
#[derive(Clone, Copy)]
pub struct Ratio {
    pub r1: u32,
    pub least: u32,
    pub greatest: u32,
}

const ONE_TO_ONE: Ratio = Ratio {
    r1: 1,
    least: 1,
    greatest: 1,
};

#[derive(Clone, Copy)]
pub struct RatioLine {
    pub future: [u8; 3],
    pub option: [u8; 3],
    pub r1: u32,
    pub least: u32,
    pub greatest: u32,
}

const RATIOS: [RatioLine; 8] = [
    RatioLine {
        future: [b'T', b'X', 0],
        option: [b'T', b'X', b'O'],
        r1: 1,
        least: 1,
        greatest: 4,
    },
    RatioLine {
        future: [b'M', b'T', b'X'],
        option: [b'T', b'X', b'O'],
        r1: 1,
        least: 1,
        greatest: 1,
    },
    RatioLine {
        future: [b'T', b'M', b'F'],
        option: [b'T', b'X', b'O'],
        r1: 5,
        least: 1,
        greatest: 1,
    },
    RatioLine {
        future: [b'T', b'E', 0],
        option: [b'T', b'E', b'O'],
        r1: 1,
        least: 1,
        greatest: 4,
    },
    RatioLine {
        future: [b'Z', b'E', b'F'],
        option: [b'T', b'E', b'O'],
        r1: 2,
        least: 1,
        greatest: 1,
    },
    RatioLine {
        future: [b'T', b'F', 0],
        option: [b'T', b'F', b'O'],
        r1: 1,
        least: 1,
        greatest: 4,
    },
    RatioLine {
        future: [b'Z', b'F', b'F'],
        option: [b'T', b'F', b'O'],
        r1: 1,
        least: 1,
        greatest: 1,
    },
    RatioLine {
        future: [b'T', b'G', b'F'],
        option: [b'T', b'G', b'O'],
        r1: 1,
        least: 1,
        greatest: 2,
    },
];

#[tactic(auto, unfolding(crate::specs::Legs::same_code), using(laws::specs::ByteLaws::as_pointwise))]
pub fn same_codes(a: Series, b: Series) -> bool
    ensures { result ≡ same_code a b }
{
    a.code == b.code
}

// The one code and the other, in either order.
#[tactic(auto, unfolding(crate::specs::Legs::couple), using(laws::specs::ByteLaws::as_pointwise))]
fn is_couple_of(x: [u8; 3], y: [u8; 3], a: Series, b: Series) -> bool
    ensures { result ≡ couple x y a b }
{
    (a.code == x && b.code == y) || (a.code == y && b.code == x)
}

// UNF with SXF, or GTF with G2F.
#[tactic(auto, unfolding(crate::specs::Legs::two_products))]
pub fn are_two_products(a: Series, b: Series) -> bool
    ensures { result ≡ two_products a b }
{
    is_couple_of([b'U', b'N', b'F'], [b'S', b'X', b'F'], a, b)
        || is_couple_of([b'G', b'T', b'F'], [b'G', b'2', b'F'], a, b)
}

// Both calls or both puts.
#[tactic(auto, unfolding(crate::specs::Legs::same_nature))]
pub fn same_natures(a: Series, b: Series) -> bool
    ensures { result ≡ same_nature a b }
{
    (series::is_call(a.nature) && series::is_call(b.nature))
        || (series::is_put(a.nature) && series::is_put(b.nature))
}

#[tactic(auto, unfolding(crate::specs::Legs::call_then_put))]
pub fn call_then_put(a: Series, b: Series) -> bool
    ensures { result ≡ call_then_put a b }
{
    series::is_call(a.nature) && series::is_put(b.nature)
}

#[tactic(auto, unfolding(crate::specs::Legs::one_call_one_put))]
pub fn one_call_one_put(a: Series, b: Series) -> bool
    ensures { result ≡ one_call_one_put a b }
{
    call_then_put(a, b) || call_then_put(b, a)
}

#[tactic(auto, unfolding(crate::specs::Legs::future_then_option))]
pub fn future_then_option(a: Series, b: Series) -> bool
    ensures { result ≡ future_then_option a b }
{
    series::is_future(a.nature) && (series::is_call(b.nature) || series::is_put(b.nature))
}

#[tactic(auto, unfolding(crate::specs::Legs::both_futures))]
pub fn both_futures(a: Series, b: Series) -> bool
    ensures { result ≡ both_futures a b }
{
    series::is_future(a.nature) && series::is_future(b.nature)
}

// Call: long strike lower; put: long strike higher.
#[tactic(auto, unfolding(crate::specs::Legs::debit_strikes))]
pub fn debit_strikes(long: Series, short: Series) -> bool
    ensures { result ≡ debit_strikes long short }
{
    let l = series::strike_of(long.nature);
    let s = series::strike_of(short.nature);
    if series::is_call(long.nature) {
        l < s
    } else {
        s < l
    }
}

#[tactic(auto, unfolding(crate::specs::Legs::one_to_one))]
pub fn one_to_one(r1: u32, r2: u32) -> bool
    ensures { result ≡ one_to_one r1 r2 }
{
    r1 == 1 && r2 == 1
}

#[tactic(auto, unfolding(crate::specs::Ratios::names), using(laws::specs::ByteLaws::as_pointwise))]
fn is_named(future: [u8; 3], option: [u8; 3], line: RatioLine) -> bool
    ensures { result ≡ names future option line }
{
    future == line.future && option == line.option
}

fn line_allows(line: RatioLine) -> Option<Ratio>
    ensures { result ≡ line_allows line }
{
    Some(Ratio {
        r1: line.r1,
        least: line.least,
        greatest: line.greatest,
    })
}

// A stock future goes 1 to 1 with an option of that stock.
fn own_allows(future: [u8; 3], option: [u8; 3]) -> Option<Ratio>
    ensures { result ≡ own_allows future option }
{
    codes::is_own_option(future, option).then_some(ONE_TO_ONE)
}

// What kind 5 allows of a future's and an option's code.
pub fn allowed_of(future: [u8; 3], option: [u8; 3]) -> Option<Ratio>
    ensures { result ≡ allowed_of future option }
{
    for line in RATIOS.iter() {
        if is_named(future, option, *line) {
            return line_allows(*line);
        }
    }
    own_allows(future, option)
}

pub fn is_couple(a: Option<Ratio>) -> bool
    ensures { result ≡ is_couple a }
{
    a.is_some()
}

pub fn fits_ratio(a: Option<Ratio>, r1: u32, r2: u32) -> bool
    ensures { result ≡ fits_ratio a r1 r2 }
{
    a.is_some_and(|one| r1 == one.r1 && laws::in_range(one.least, one.greatest, r2))
}
