// The margin of one lot, from the lines of a sheet, and what the pairs of an option use of them.
#![tactic(auto)]

ghost use Rattle.std.specs.Prelude.{◌≡◌, true, ◌≤◌};
ghost use Rattle.levels.specs.Each.{AtEach, AtBoth, AtThree};
ghost use Rattle.levels.specs.Levels.{per_level, both_levels, flat, rates_of};
ghost use Rattle.levels.specs.Ranges.{AtMost, rates_fit};
ghost use Rattle.laws.specs.Truth.{pick};
ghost use Rattle.laws.specs.Refusals.{number_of};
ghost use Rattle.rounding.specs.Rounding.{to_dollar};
ghost use Rattle.amounts.specs.Lines.{index_fits, stock_fits, option_fits};
ghost use Rattle.amounts.specs.LineLaws.{IndexFacts, StockFacts, OptionFacts};
ghost use Rattle.amounts.specs.Singles.{portion, dollars, premium_value, out_of_money, single, index_margin, stock_margin, future_margin};
ghost use Rattle.amounts.specs.Limits.{lot_fits, terms_fit};
ghost use Rattle.amounts.specs.ValueLimits.{ValueFits, price_limit, rate_limit, exact_limit};
ghost use Rattle.amounts.specs.Lots.{future_lot, option_lot, refused_terms, fixed_future, stock_future, index_option, stock_option, index_terms, stock_terms};

use laws::Refusal;
use levels::Levels;

// What a sheet says of a listed option (its O line): A, B and C in dollars.
#[derive(Clone, Copy, Default)]
pub struct IndexLine {
    pub multiplier: u32,
    pub a: Levels,
    pub b: Levels,
    pub c: Levels,
    pub underlying: u32,
}

// What a sheet says of a stock (its S line): the clearing rates of its futures and its options, and c, in thousandths of a
// percent.
#[derive(Clone, Copy, Default)]
pub struct StockLine {
    pub shares: u32,
    pub future: u32,
    pub option: u32,
    pub c: Levels,
    pub disposition: u32,
    pub price: u32,
}

// One lot of a future, or one short lot of an option: its margin, and of an option its premium value, price and strike. With a
// refusal its number and zeros.
#[derive(Clone, Copy, Default)]
pub struct Lot {
    pub number: u8,
    pub margin: Levels,
    pub premium: u64,
    pub price: u32,
    pub strike: u32,
}

// What the pairs of an option code use beside their lots: multiplier, 10 percent of the parent's clearing margin or of the
// security value, and C. With a refusal its number and zeros.
#[derive(Clone, Copy, Default)]
pub struct Terms {
    pub number: u8,
    pub multiplier: u32,
    pub tenth: u64,
    pub c: Levels,
}

// What f makes of each level. Private, with the next one, as in levels: public ones would ask of their caller that f may be called, and no
// public function asks anything of its caller.
fn at_each<F: Fn(u64) -> u64>(l: Levels, f: F) -> Levels
    requires { AtEach (F.pre f) l }
    ensures { AtBoth (F.post f) l result }
{
    Levels {
        clearing: f(l.clearing),
        maintenance: f(l.maintenance),
        initial: f(l.initial),
    }
}

// What f makes of the two at each level.
fn at_both<F: Fn(u64, u64) -> u64>(l: Levels, m: Levels, f: F) -> Levels
    requires { AtBoth (F.pre f) l m }
    ensures { AtThree (F.post f) l m result }
{
    Levels {
        clearing: f(l.clearing, m.clearing),
        maintenance: f(l.maintenance, m.maintenance),
        initial: f(l.initial, m.initial),
    }
}

// Whether the numbers of an O line are in their ranges.
#[tactic(auto, unfolding(crate::specs::Lines::index_fits))]
pub fn index_fits(o: IndexLine) -> bool
    ensures { result ≡ index_fits o }
{
    (1..=20000).contains(&o.multiplier)
        && (1..=100000000).contains(&o.underlying)
        && levels::levels_fit(100000000, o.a)
        && levels::levels_fit(100000000, o.b)
        && levels::levels_fit(100000000, o.c)
}

// Whether the numbers of an S line are in their ranges and on their steps.
#[tactic(auto, unfolding(crate::specs::Lines::stock_fits))]
pub fn stock_fits(s: StockLine) -> bool
    ensures { result ≡ stock_fits s }
{
    (1..=20000).contains(&s.shares)
        && (1..=100000000).contains(&s.price)
        && levels::rates_fit(s.future, s.disposition)
        && levels::rates_fit(s.option, s.disposition)
        && levels::levels_fit(100000, s.c)
}

// Whether an option's strike and price are in their ranges.
#[tactic(auto, unfolding(crate::specs::Lines::option_fits))]
fn option_fits(strike: u32, price: u32) -> bool
    ensures { result ≡ option_fits strike price }
{
    (1..=100000000).contains(&strike) && price <= 100000000
}

// A rate of a value, exact: price x multiplier x rate. The one place where it is shown to fit.
#[tactic(auto, unfolding(crate::specs::Singles::portion))]
fn portion_of(price: u64, multiplier: u64, rate: u64) -> u64
    requires { ValueFits price multiplier × (rate ≤ rate_limit) }
    ensures { (result ≡ portion price multiplier rate) × (result ≤ exact_limit) }
{
    price * multiplier * rate
}

// The same at each level.
fn portions_of(price: u64, multiplier: u64, rates: Levels) -> Levels
    requires { ValueFits price multiplier × AtMost rate_limit rates }
    ensures { (result ≡ per_level (portion price multiplier) rates) × AtMost exact_limit result }
{
    at_each(rates, |rate| portion_of(price, multiplier, rate))
}

// Dollars as exact amounts, and exact amounts as dollars, at each level.
#[tactic(auto, unfolding(crate::specs::Singles::dollars))]
fn exact_dollars(l: Levels) -> Levels
    requires { AtMost 100000000 l }
    ensures { (result ≡ per_level dollars l) × AtMost exact_limit result }
{
    at_each(l, |n| n * 100000000)
}

fn to_dollars(l: Levels) -> Levels
    ensures { result ≡ per_level to_dollar l }
{
    at_each(l, rounding::to_dollar)
}

// The dollars of price x multiplier.
#[tactic(auto, using(rounding::specs::RoundingLaws::dollars_of_thousandths), unfolding(crate::specs::Singles::premium_value, crate::specs::Singles::worth, crate::specs::Singles::portion))]
pub fn premium_value(price: u32, multiplier: u32) -> u64
    ensures { result ≡ premium_value price multiplier }
{
    rounding::half_up(price, multiplier, 1000, 1)
}

// The out-of-money amount, exact.
#[tactic(auto, unfolding(crate::specs::Singles::out_of_money, crate::specs::Singles::worth))]
fn out_of_money(call: bool, strike: u64, underlying: u64, multiplier: u64) -> u64
    requires { ValueFits strike multiplier × ValueFits underlying multiplier }
    ensures { result ≡ out_of_money call strike underlying multiplier }
{
    let out = if call {
        strike.saturating_sub(underlying)
    } else {
        underlying.saturating_sub(strike)
    };
    portion_of(out, multiplier, 100000)
}

// The margin of a single short option at one level, from exact amounts, rounded once.
#[tactic(auto, unfolding(crate::specs::Singles::single))]
fn single_at(premium: u64, out: u64, a: u64, b: u64) -> u64
    requires { (premium ≤ exact_limit) × ((a ≤ exact_limit) × (b ≤ exact_limit)) }
    ensures { result ≡ single premium out a b }
{
    rounding::to_dollar(premium + a.saturating_sub(out).max(b))
}

// The same at each level.
fn singles(premium: u64, out: u64, a: Levels, b: Levels) -> Levels
    requires { (premium ≤ exact_limit) × (AtMost exact_limit a × AtMost exact_limit b) }
    ensures { result ≡ both_levels (single premium out) a b }
{
    at_both(a, b, |a, b| single_at(premium, out, a, b))
}

// A single short option of an index.
#[tactic(auto, unfolding(crate::specs::Singles::index_margin, crate::specs::Singles::worth))]
fn index_margin(o: IndexLine, call: bool, strike: u32, price: u32) -> Levels
    requires { IndexFacts o × OptionFacts strike price }
    ensures { result ≡ index_margin o call strike price }
{
    let multiplier = o.multiplier as u64;
    let premium = portion_of(price as u64, multiplier, 100000);
    let out = out_of_money(call, strike as u64, o.underlying as u64, multiplier);
    singles(premium, out, exact_dollars(o.a), exact_dollars(o.b))
}

// A stock's rates, which fit.
#[tactic(auto, using(levels::specs::LevelLaws::rates_ok))]
fn rates_taken(rate: u32, disposition: u32) -> Levels
    requires { rates_fit rate disposition ≡ true }
    ensures { (result ≡ rates_of rate disposition) × AtMost rate_limit result }
{
    levels::stock_rates(rate, disposition).unwrap()
}

// The price that B of a stock option is taken of: the stock's for a call, the strike for a put.
fn base_price(call: bool, strike: u32, price: u32) -> u32
    requires { (strike ≤ price_limit) × (price ≤ price_limit) }
    ensures { (result ≡ pick call price strike) × (result ≤ price_limit) }
{
    if call { price } else { strike }
}

// A single short option of a stock.
#[tactic(auto, unfolding(crate::specs::Singles::stock_margin, crate::specs::Singles::worth))]
fn stock_margin(s: StockLine, call: bool, strike: u32, price: u32) -> Levels
    requires { StockFacts s × OptionFacts strike price }
    ensures { result ≡ stock_margin s call strike price }
{
    let shares = s.shares as u64;
    let a = rates_taken(s.option, s.disposition);
    let premium = portion_of(price as u64, shares, 100000);
    let out = out_of_money(call, strike as u64, s.price as u64, shares);
    let base = base_price(call, strike, s.price) as u64;
    singles(
        premium,
        out,
        portions_of(s.price as u64, shares, a),
        portions_of(base, shares, levels::halves(a)),
    )
}

// A stock future.
#[tactic(auto, unfolding(crate::specs::Singles::future_margin))]
fn future_margin(s: StockLine, price: u32) -> Levels
    requires { StockFacts s × (price ≤ price_limit) }
    ensures { result ≡ future_margin s price }
{
    let rates = rates_taken(s.future, s.disposition);
    to_dollars(portions_of(price as u64, s.shares as u64, rates))
}

// No lot: its number, and zeros.
fn no_lot(refusal: Refusal) -> Lot
    ensures { result ≡ future_lot (number_of refusal) (flat 0) }
{
    Lot {
        number: refusal.number(),
        ..Lot::default()
    }
}

// A value outside its range or off its step.
fn no_terms() -> Terms
    ensures { result ≡ refused_terms }
{
    Terms {
        number: Refusal::OutOfRange.number(),
        ..Terms::default()
    }
}

// A lot of a future, and one of an option.
fn future_lot(margin: Levels) -> Lot
    ensures { result ≡ future_lot 0 margin }
{
    Lot {
        margin,
        ..Lot::default()
    }
}

fn option_lot(margin: Levels, multiplier: u32, strike: u32, price: u32) -> Lot
    ensures { result ≡ option_lot margin multiplier strike price }
{
    Lot {
        number: 0,
        margin,
        premium: premium_value(price, multiplier),
        price,
        strike,
    }
}

// One lot of a fixed future, from the clearing amount of the full-size future and the part that it is of it.
#[tactic(auto, unfolding(crate::specs::Lots::fixed_future))]
pub fn fixed_future(clearing: u32, part: u32) -> Lot
    ensures { result ≡ fixed_future clearing part }
{
    match levels::fixed_levels(clearing, part) {
        Ok(margin) => future_lot(margin),
        Err(refusal) => no_lot(refusal),
    }
}

// One lot of a stock future, from its own price.
#[tactic(auto, unfolding(crate::specs::Lots::stock_future, crate::specs::Lines::future_asked))]
pub fn stock_future(s: StockLine, price: u32) -> Lot
    ensures { result ≡ stock_future s price }
{
    if stock_fits(s) && price <= 100000000 {
        return future_lot(future_margin(s, price));
    }
    no_lot(Refusal::OutOfRange)
}

// One short lot of an index option.
#[tactic(auto, using(crate::specs::LineLaws::index_is, crate::specs::LineLaws::option_is), unfolding(crate::specs::Lots::index_option, crate::specs::Lines::index_asked))]
pub fn index_option(o: IndexLine, call: bool, strike: u32, price: u32) -> Lot
    ensures { result ≡ index_option o call strike price }
{
    if index_fits(o) && option_fits(strike, price) {
        return option_lot(
            index_margin(o, call, strike, price),
            o.multiplier,
            strike,
            price,
        );
    }
    no_lot(Refusal::OutOfRange)
}

// One short lot of a stock option.
#[tactic(auto, unfolding(crate::specs::Lots::stock_option, crate::specs::Lines::stock_asked))]
pub fn stock_option(s: StockLine, call: bool, strike: u32, price: u32) -> Lot
    ensures { result ≡ stock_option s call strike price }
{
    if stock_fits(s) && option_fits(strike, price) {
        return option_lot(
            stock_margin(s, call, strike, price),
            s.shares,
            strike,
            price,
        );
    }
    no_lot(Refusal::OutOfRange)
}

// What the pairs of an index option use, with the clearing margin of its parent future.
#[tactic(auto, unfolding(crate::specs::Lots::index_terms, crate::specs::Lines::terms_asked))]
pub fn index_terms(o: IndexLine, clearing: u32) -> Terms
    ensures { result ≡ index_terms o clearing }
{
    if index_fits(o) && levels::clearing_fits(clearing) {
        return Terms {
            number: 0,
            multiplier: o.multiplier,
            tenth: clearing as u64 / 10,
            c: o.c,
        };
    }
    no_terms()
}

// What the pairs of a stock option use.
#[tactic(auto, using(crate::specs::LineLaws::value_fits, crate::specs::LineLaws::c_fits), unfolding(crate::specs::Lots::stock_terms))]
pub fn stock_terms(s: StockLine) -> Terms
    ensures { result ≡ stock_terms s }
{
    if stock_fits(s) {
        let price = s.price as u64;
        let shares = s.shares as u64;
        return Terms {
            number: 0,
            multiplier: s.shares,
            tenth: rounding::to_dollar(portion_of(price, shares, 10000)),
            c: to_dollars(portions_of(price, shares, s.c)),
        };
    }
    no_terms()
}

// Whether a lot is one that a sheet can give.
#[tactic(auto, unfolding(crate::specs::Limits::lot_fits))]
pub fn lot_fits(l: Lot) -> bool
    ensures { result ≡ lot_fits l }
{
    l.number == 0
        && levels::levels_fit(4430000000, l.margin)
        && l.premium <= 2000000000
        && l.price <= 100000000
        && l.strike <= 100000000
}

// Whether terms are ones that a sheet can give.
#[tactic(auto, unfolding(crate::specs::Limits::terms_fit))]
pub fn terms_fit(t: Terms) -> bool
    ensures { result ≡ terms_fit t }
{
    t.number == 0
        && t.multiplier <= 20000
        && t.tenth <= 200000000
        && levels::levels_fit(2000000000, t.c)
}
