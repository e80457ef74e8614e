// The receipt of a file, which says whether it came whole and nothing of its figures: a line, and how the program that writes it ends. And the line of any refusal.
#![tactic(auto)]

ghost use Rattle.std.specs.Prelude.{◌≡◌, ◌≤◌, length};
ghost use Rattle.rules.specs.Listing.{refused_line, receipt};
ghost use Rattle.text.specs.Put.{Given};
ghost use Rattle.receipt.specs.Status.{receipt_status};

use text::{give, put_phrase};

// The line of a refusal (RULES 8.2), whole, and its length; where it does not fit, nothing, and 0.
pub fn refused(number: u8, out: &mut [u8]) -> usize
    ensures given { Given (refused_line number) out.old result out.new }
    ensures number_len_bound { length (refused_line number) ≤ 29 }
{
    let mut made = [0u8; 29];
    let n = put_phrase(&mut made, 0, b"refused ", number as u64, b'\n');
    give(&made[..n], out)
}

// The receipt of a file (RULES 8.4), likewise.
pub fn line(file: &[u8], out: &mut [u8]) -> usize
    ensures given { Given (receipt file.now) out.old result out.new }
    ensures file_len_bound { length (receipt file.now) ≤ 29 }
{
    match arrival::whole(file) {
        Ok(()) => give(b"whole\n", out),
        Err(refusal) => refused(refusal.number, out),
    }
}

// 0 where a file came whole, 2 where it is refused.
pub fn status(file: &[u8]) -> u8
    ensures { result ≡ receipt_status file.now }
{
    if arrival::whole(file).is_err() {
        return 2;
    }
    0
}
