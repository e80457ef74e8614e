// A table file judged into three outputs that are lent.
#![tactic(auto)]

ghost use Rattle.std.specs.Prelude.{◌≡◌};
ghost use Rattle.rules.specs.Chain.{granted};
ghost use Rattle.judged.specs.JudgedFile.{check_judged_file, JudgedFile};

use places::Header;
use rules::Refusal;

// 1 to 11, 16, 18, 13 and 14, then 255 where an output has fewer places than the file has tasks; or every task's answer. A refusal changes nothing.
pub fn judge_file(
    file: &[u8],
    starts: &[u64],
    bounds: &mut [u64],
    rounds: &mut [u64],
    by: &mut [u8],
) -> Result<(), Refusal>
    ensures value { result ≡ granted (check_judged_file file.now starts.now bounds.old rounds.old by.old) tt }
    ensures judged_file { JudgedFile file.now starts.now bounds.old rounds.old by.old bounds.new rounds.new by.new }
{
    admit_file::check(file)?;
    let judged = verdicts::judge_accepted(file, plain::all_starts(starts));
    let tasks = Header::of(file).tasks;
    outcome::store(judged, usize::from(tasks), bounds, rounds, by)
}
