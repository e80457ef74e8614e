// An accepted table file judged from its bytes: the figures go into lent columns, and no table is made.
#![tactic(auto)]

ghost use Rattle.std.specs.Prelude.{◌≡◌, true};
ghost use Rattle.rules.specs.Chain.{is_accepted, granted};
ghost use Rattle.rules.specs.File.{decode};
ghost use Rattle.rules.specs.Operations.{check_to_judge, judge_all};

use file_prices::Accepted;
use own::Lent;
use rules::{Answer, Refusal};

// 13 with the first late start, 14 with the first whose start F lowers, or every task's answer.
pub fn judge_accepted(file: &[u8], starts: [u64; 32]) -> Result<[Answer; 32], Refusal>
    requires { is_accepted (check_to_judge file.now) ≡ true }
    ensures { result ≡ granted (judge_all (decode file.now) starts).refusal (judge_all (decode file.now) starts).answers }
{
    let mut lent = Lent::empty();
    columns::lay(&Accepted { file }, &mut lent);
    rounds::judge_lent(&lent, &starts)
}
