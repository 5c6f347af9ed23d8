// How many digits a number has; what digits write is in specs/Digits.
#![tactic(auto)]

ghost use Rattle.std.specs.Prelude.{◌≡◌};
ghost use Rattle.digits.specs.Digits.{width_of};

// How many digits n has.
pub fn width_of(n: u64) -> usize
    ensures { result ≡ width_of n }
{
    let mut w = 1;
    let mut m = n;
    while 9 < m {
        m /= 10;
        w += 1;
    }
    w
}
