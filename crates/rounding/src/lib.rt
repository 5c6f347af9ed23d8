// Rounding to a step, up and half up.
#![tactic(auto)]

ghost use Rattle.std.specs.Prelude.{◌≡◌, ◌*◌, ◌≤◌, ◌<◌};
ghost use Rattle.rounding.specs.Rounding.{steps_up, steps_near, round_up, half_up, to_dollar};

// The product of two numbers of 32 bits.
#[tactic(auto, using(crate::specs::RoundingLaws::product_fits))]
fn product(x: u32, y: u32) -> u64
    ensures { (result ≡ x * y) × (result ≤ 18446744065119617025) }
{
    x as u64 * y as u64
}

// The least number of steps of a size that is not below n.
#[tactic(auto, using(crate::specs::RoundingLaws::up_ceil))]
fn steps_up(n: u64, size: u64) -> u64
    requires { 0 < size }
    ensures { result ≡ steps_up n size }
{
    n.div_ceil(size)
}

// The number of steps of a size nearest to n, half up.
#[tactic(auto, using(crate::specs::RoundingLaws::near_same, crate::specs::RoundingLaws::near_one_more, crate::specs::RoundingLaws::one_more_fits))]
fn steps_near(n: u64, size: u64) -> u64
    requires { 0 < size }
    ensures { result ≡ steps_near n size }
{
    let rest = n % size;
    if rest < size - rest {
        return n / size;
    }
    n / size + 1
}

// The least multiple of the step not below amount x times / parts.
#[tactic(auto, using(crate::specs::RoundingLaws::none_up, crate::specs::RoundingLaws::up_fits), unfolding(crate::specs::Rounding::round_up))]
pub fn round_up(amount: u32, times: u32, parts: u32, step: u32) -> u64
    ensures { result ≡ round_up (amount * times) parts step }
{
    let size = product(parts, step);
    if size == 0 {
        return 0;
    }
    steps_up(product(amount, times), size) * step as u64
}

// The multiple of the step nearest to amount x times / parts, half up.
#[tactic(auto, using(crate::specs::RoundingLaws::none_half_up, crate::specs::RoundingLaws::near_fits), unfolding(crate::specs::Rounding::half_up))]
pub fn half_up(amount: u32, times: u32, parts: u32, step: u32) -> u64
    ensures { result ≡ half_up (amount * times) parts step }
{
    let size = product(parts, step);
    if size == 0 {
        return 0;
    }
    steps_near(product(amount, times), size) * step as u64
}

// Whole dollars, half up, of hundred-millionths of a dollar.
#[tactic(auto, using(crate::specs::RoundingLaws::to_dollar_steps))]
pub fn to_dollar(fine: u64) -> u64
    ensures { result ≡ to_dollar fine }
{
    steps_near(fine, 100000000)
}
