// Series: the code, the date, the nature; the checks on a series, and their order.
#![tactic(auto)]

ghost use Rattle.std.specs.Prelude.{◌≡◌, ◌<◌};
ghost use Rattle.laws.specs.Refusals.{number_in};
ghost use Rattle.series.specs.Checks.{strike_fits, suits, series_number};
ghost use Rattle.series.specs.Natures.{is_future, is_call, is_put, letter_of, strike_of};
ghost use Rattle.series.specs.Key.{high_key, nature_key, halves_of, series_order};

use codes::Class;
use laws::Refusal;
use std::cmp::Ordering;

// A future, a call with its strike or a put with its strike.
#[derive(Clone, Copy, Debug, PartialEq, Eq)]
pub enum Nature {
    Future,
    Call(u32),
    Put(u32),
}

#[derive(Clone, Copy, Debug, PartialEq, Eq)]
pub struct Series {
    pub code: [u8; 3],
    pub date: u32,
    pub nature: Nature,
}

// The key of a series as two numbers: code and date, nature and strike.
#[derive(Clone, Copy)]
pub struct Halves {
    pub high: u64,
    pub low: u64,
}

// The two sides on which lots of a series are held.
#[derive(Clone, Copy, Debug, PartialEq, Eq)]
pub enum Side {
    Long,
    Short,
}

fn strike_fits(strike: u32) -> bool
    ensures { result ≡ strike_fits strike }
{
    laws::in_range(1, 100000000, strike)
}

// Whether the nature suits the code, with an option's strike in its range.
pub fn nature_suits(class: Class, nature: Nature) -> bool
    ensures { result ≡ suits class nature }
{
    match nature {
        Nature::Future => codes::is_future_class(class),
        Nature::Call(strike) | Nature::Put(strike) => {
            codes::is_option_class(class) && strike_fits(strike)
        }
    }
}

// The checks on a series: its code, its date, its nature.
#[tactic(auto, unfolding(crate::specs::Checks::series_number, crate::specs::Checks::series_checks, crate::specs::Checks::class_of, laws::specs::Checks::first_failing))]
pub fn check(s: Series) -> Result<(), Refusal>
    ensures { number_in result ≡ series_number s }
{
    let class = codes::product_of(s.code).class;
    laws::ensure(codes::is_known(class), Refusal::UnknownCode)?;
    laws::ensure(dates::is_day(s.date), Refusal::NoSuchDate)?;
    laws::ensure(nature_suits(class, s.nature), Refusal::OutOfRange)
}

pub fn is_future(n: Nature) -> bool
    ensures { result ≡ is_future n }
{
    matches!(n, Nature::Future)
}

pub fn is_call(n: Nature) -> bool
    ensures { result ≡ is_call n }
{
    matches!(n, Nature::Call(_))
}

pub fn is_put(n: Nature) -> bool
    ensures { result ≡ is_put n }
{
    matches!(n, Nature::Put(_))
}

// The letter that a nature is written by.
pub fn letter_of(n: Nature) -> u8
    ensures { result ≡ letter_of n }
{
    match n {
        Nature::Future => b'F',
        Nature::Call(_) => b'C',
        Nature::Put(_) => b'P',
    }
}

// The strike as it is written: 0 for a future.
pub fn strike_of(n: Nature) -> u32
    ensures { result ≡ strike_of n }
{
    match n {
        Nature::Future => 0,
        Nature::Call(strike) | Nature::Put(strike) => strike,
    }
}

// The code's bytes and the date as one number.
#[tactic(auto, unfolding(crate::specs::Key::high_key, crate::specs::Key::code_key, laws::specs::Order::join))]
fn high_key(s: Series) -> u64
    ensures { result ≡ high_key s }
{
    let [a, b, c] = s.code;
    let code = (u64::from(a) * 256 + u64::from(b)) * 256 + u64::from(c);
    code * 4294967296 + u64::from(s.date)
}

// The nature's letter and the strike as one number.
#[tactic(auto, unfolding(crate::specs::Key::nature_key, laws::specs::Order::join))]
fn low_key(n: Nature) -> u64
    ensures { (result ≡ nature_key n) × (result < 1099511627776) }
{
    u64::from(letter_of(n)) * 4294967296 + u64::from(strike_of(n))
}

// The key of a series, half by half.
pub fn halves_of(s: Series) -> Halves
    ensures { result ≡ halves_of s }
{
    Halves {
        high: high_key(s),
        low: low_key(s.nature),
    }
}

// The order of two series.
pub fn compare(a: Series, b: Series) -> Ordering
    ensures { result ≡ series_order a b }
{
    let high = high_key(a).cmp(&high_key(b));
    let low = low_key(a.nature).cmp(&low_key(b.nature));
    high.then(low)
}
