// The report of a salvage (RULES 8.5): its line, into a lent buffer.
#![tactic(auto)]

ghost use Rattle.std.specs.Prelude.{◌≡◌, ◌≤◌, length};
ghost use Rattle.rules.specs.Chain.{granted};
ghost use Rattle.rules.specs.Results.{Salvaged, counts_of};
ghost use Rattle.rules.specs.Listing.{report};
ghost use Rattle.text.specs.Put.{Put, Given};
ghost use Rattle.report.specs.Counts.{counts_line, reported};

use rules::{Refusal, Salvage};
use text::{give, put_phrase};

// The line of the three counts, which takes at most 85 bytes.
fn put_counts(buf: &mut [u8], r: Salvage) -> usize
    requires { 85 ≤ length buf.old }
    ensures put { Put buf.old 0 (counts_line r) result buf.new }
    ensures upper_bound { result ≤ 85 }
{
    let promised = put_phrase(buf, 0, b"promised ", r.promised as u64, b' ');
    let kept = put_phrase(buf, promised, b"kept ", r.kept as u64, b' ');
    put_phrase(buf, kept, b"stopped ", r.stopped as u64, b'\n')
}

// The report, whole, and its length; where it does not fit, nothing, and 0.
pub fn line(answered: Result<Salvage, Refusal>, out: &mut [u8]) -> usize
    ensures given { Given (reported answered) out.old result out.new }
    ensures r_len_bound { length (reported answered) ≤ 85 }
    ensures report { (r : Salvaged) → answered ≡ granted r.refusal (counts_of r) → reported answered ≡ report r }
{
    match answered {
        Ok(counts) => {
            let mut made = [0u8; 85];
            let n = put_counts(&mut made, counts);
            give(&made[..n], out)
        }
        Err(refusal) => receipt::refused(refusal.number, out),
    }
}
