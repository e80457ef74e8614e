// The two sums of a trailer, over lent bytes: a block of words at a time, and byte by byte what is left.
#![tactic(auto)]

ghost use Rattle.std.specs.Prelude.{◌≡◌, ◌+◌, ◌*◌, ◌<◌, ◌≤◌, length};
ghost use Rattle.lanes.specs.Sums.{sums_of, joined_sums};

use lanes::Totals;

// Byte by byte: for what no whole word is left of.
fn byte_sums(s: &[u8]) -> Totals
    requires { length s.now ≤ 65536 }
    ensures { result ≡ sums_of s.now }
{
    let mut sum = 0;
    let mut running = 0;
    for byte in s {
        sum += u64::from(*byte);
        running += sum;
    }
    Totals { sum, running }
}

// The sums a of some bytes and the sums b of the n bytes after them, together.
fn joined(a: Totals, b: Totals, n: usize) -> Totals
    requires sum_bound { a.sum + b.sum < 18446744073709551616 }
    requires running_bound { a.running + n * a.sum + b.running < 18446744073709551616 }
    ensures { result ≡ joined_sums a b n }
{
    Totals {
        sum: a.sum + b.sum,
        running: a.running + (n as u64) * a.sum + b.running,
    }
}

// RULES 7.3: both as whole numbers. 64 bits hold those of far more bytes than a file can have.
pub fn sums(s: &[u8]) -> Totals
    requires { length s.now ≤ 65536 }
    ensures { result ≡ sums_of s.now }
{
    let (words, rest) = s.split_at(s.len() - s.len() % 8);
    let mut t = Totals { sum: 0, running: 0 };
    for block in words.chunks(128) {
        t = joined(t, lanes::word_sums(block), block.len());
    }
    joined(t, byte_sums(rest), rest.len())
}
