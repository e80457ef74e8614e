// Did a file come whole? Refusals 1 to 4.
#![tactic(auto)]

ghost use Rattle.std.specs.Prelude.{◌≡◌, ◌≤◌, length};
ghost use Rattle.rules.specs.Chain.{granted};
ghost use Rattle.rules.specs.File.{check_whole, check_trailer};

use chain::refuse_if;
use places::Header;
use rules::Refusal;

// 3 and 4, of a file that has the right length.
fn trailer(file: &[u8]) -> Result<(), Refusal>
    requires in_bounds { 12 ≤ length file.now }
    requires file_len_bound { length file.now ≤ 65536 }
    ensures { result ≡ granted (check_trailer file.now) tt }
{
    let n = file.len();
    let e = n - 12;
    refuse_if(lent_bytes::le32(file, e) as usize != e, 3, 0)?;
    let total = sums::sums(&file[..e]);
    let sum_differs = lent_bytes::le32(file, n - 8) as u64 != total.sum;
    let running_differs = lent_bytes::le32(file, n - 4) as u64 != total.running;
    refuse_if(sum_differs || running_differs, 4, 0)
}

// 1 to 4.
pub fn whole(file: &[u8]) -> Result<(), Refusal>
    ensures { result ≡ granted (check_whole file.now) tt }
{
    refuse_if(file.len() < 46, 1, 0)?;
    let header = Header::of(file);
    let length = places::file_length(header.form, header.cores, header.tasks);
    refuse_if(file.len() != length, 2, 0)?;
    trailer(file)
}
