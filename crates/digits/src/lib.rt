// The digits of a number.
#![tactic(auto)]

ghost use Rattle.std.specs.Prelude.{◌≡◌, length};
ghost use Rattle.digits.specs.Spelled.{Spelled};

// The digits of n at the end of d, the last digit last; the place of the first.
pub fn spell(n: u64, d: &mut [u8]) -> usize
    requires { length d.old ≡ 20 }
    ensures { Spelled n result d.new }
{
    let mut m = n;
    let mut i = 19;
    // A while: the digits run out before the places do, and after a `for` over the places stands an answer that is never given.
    while 10 <= m {
        d[i] = b'0' + (m % 10) as u8;
        m /= 10;
        i -= 1;
    }
    d[i] = b'0' + m as u8;
    i
}
