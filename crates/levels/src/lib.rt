// The three levels of a margin: a fixed future's amounts, and a stock's rates.
#![tactic(auto)]

ghost use Rattle.std.specs.Prelude.{◌≡◌, ◌≤◌, ◌<◌};
ghost use Rattle.levels.specs.Each.{AtEach, AtBoth};
ghost use Rattle.levels.specs.Levels.{answer_of, per_level, flat, levels_of, part_of, raised, rates_of, half_of, fixed_levels, stock_rates};
ghost use Rattle.levels.specs.Ranges.{levels_fit, clearing_fits, part_fits, fixed_fits, rate_fits, disposition_fits, rates_fit};

use laws::Refusal;

// One number for each level: dollars, or thousandths of a percent.
#[derive(Clone, Copy, Default)]
pub struct Levels {
    pub clearing: u64,
    pub maintenance: u64,
    pub initial: u64,
}

// What f makes of each level. It is private, and amounts and units have their own: a public one would ask of its caller that f may
// be called, and no public function asks anything of its caller.
fn at_each<F: Fn(u64) -> u64>(l: Levels, f: F) -> Levels
    requires { AtEach (F.pre f) l }
    ensures { AtBoth (F.post f) l result }
{
    Levels {
        clearing: f(l.clearing),
        maintenance: f(l.maintenance),
        initial: f(l.initial),
    }
}

// The same number at all levels.
pub fn same_at_all(n: u64) -> Levels
    ensures { result ≡ flat n }
{
    Levels {
        clearing: n,
        maintenance: n,
        initial: n,
    }
}

// Whether no level is above `most`.
#[tactic(auto, unfolding(crate::specs::Ranges::levels_fit))]
pub fn levels_fit(most: u64, l: Levels) -> bool
    ensures { result ≡ levels_fit most l }
{
    l.clearing <= most && l.maintenance <= most && l.initial <= most
}

// A clearing amount: at most 100,000,000, a multiple of 1,000.
#[tactic(auto, unfolding(crate::specs::Ranges::clearing_fits))]
pub fn clearing_fits(clearing: u32) -> bool
    ensures { result ≡ clearing_fits clearing }
{
    clearing <= 100000000 && clearing % 1000 == 0
}

// Which part of the full-size future: all of it, a quarter, an eighth or a twentieth.
#[tactic(auto, unfolding(crate::specs::Ranges::part_fits))]
fn part_fits(part: u32) -> bool
    ensures { result ≡ part_fits part }
{
    matches!(part, 1 | 4 | 8 | 20)
}

// What a fixed future is asked with.
#[tactic(auto, unfolding(crate::specs::Ranges::fixed_fits))]
fn fixed_fits(clearing: u32, part: u32) -> bool
    ensures { result ≡ fixed_fits clearing part }
{
    clearing_fits(clearing) && part_fits(part)
}

// A clearing rate: 1,000 to 30,000 by thousands.
#[tactic(auto, unfolding(crate::specs::Ranges::rate_fits))]
fn rate_fits(rate: u32) -> bool
    ensures { result ≡ rate_fits rate }
{
    (1000..=30000).contains(&rate) && rate % 1000 == 0
}

// A disposition: 10, 15, 20 or 30 tenths.
#[tactic(auto, unfolding(crate::specs::Ranges::disposition_fits))]
fn disposition_fits(disposition: u32) -> bool
    ensures { result ≡ disposition_fits disposition }
{
    matches!(disposition, 10 | 15 | 20 | 30)
}

// Whether a clearing rate and a disposition are ones that a sheet can have.
#[tactic(auto, unfolding(crate::specs::Ranges::rates_fit))]
pub fn rates_fit(rate: u32, disposition: u32) -> bool
    ensures { result ≡ rates_fit rate disposition }
{
    rate_fits(rate) && disposition_fits(disposition)
}

// 1.035 and 1.35 times the clearing amount, each raised to the step.
#[tactic(auto, unfolding(crate::specs::Levels::levels_of))]
fn levels_of(clearing: u32, step: u32) -> Levels
    ensures { result ≡ levels_of clearing step }
{
    Levels {
        clearing: clearing as u64,
        maintenance: rounding::round_up(clearing, 1035, 1000, step),
        initial: rounding::round_up(clearing, 1350, 1000, step),
    }
}

// A part of the amount at the same level.
#[tactic(auto, unfolding(crate::specs::Levels::part_of))]
fn part_of(l: Levels, part: u32) -> Levels
    requires { 0 < part }
    ensures { result ≡ part_of l part }
{
    at_each(l, |x| x / part as u64)
}

// A fixed future's margin, from the clearing amount of the full-size future and the part that it is of it.
#[tactic(auto, using(crate::specs::RangeLaws::some_part), unfolding(crate::specs::Levels::fixed_levels))]
pub fn fixed_levels(clearing: u32, part: u32) -> Result<Levels, Refusal>
    ensures { answer_of result ≡ fixed_levels clearing part }
{
    laws::ensure(fixed_fits(clearing, part), Refusal::OutOfRange)?;
    Ok(part_of(levels_of(clearing, 1000), part))
}

// The clearing rate raised by the disposition; then 1.035 and 1.35 times the raised rate, half up to 0.01 percent.
#[tactic(auto, unfolding(crate::specs::Levels::rates_of, crate::specs::Levels::raised))]
fn rates_of(rate: u32, disposition: u32) -> Levels
    requires { (rate ≤ 30000) × (disposition ≤ 30) }
    ensures { result ≡ rates_of rate disposition }
{
    let raised = rate * disposition / 10;
    Levels {
        clearing: raised as u64,
        maintenance: rounding::half_up(raised, 1035, 1000, 10),
        initial: rounding::half_up(raised, 1350, 1000, 10),
    }
}

// A stock's rates, for its futures or for its options (a).
#[tactic(auto, using(crate::specs::RangeLaws::rates_are), unfolding(crate::specs::Levels::stock_rates))]
pub fn stock_rates(rate: u32, disposition: u32) -> Result<Levels, Refusal>
    ensures { answer_of result ≡ stock_rates rate disposition }
{
    laws::ensure(rates_fit(rate, disposition), Refusal::OutOfRange)?;
    Ok(rates_of(rate, disposition))
}

// Half of each level: b of a.
#[tactic(auto, unfolding(crate::specs::Levels::half_of))]
pub fn halves(l: Levels) -> Levels
    ensures { result ≡ per_level half_of l }
{
    at_each(l, |x| x / 2)
}
