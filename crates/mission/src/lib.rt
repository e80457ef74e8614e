// The sentences of docs/CLAIMS.md on judgements, on the operations themselves: each function makes the call that a sentence speaks of, and its contract says
// what it gives and then the sentence. Nobody has to call these; they are here to be proved. Those on files are in `mission_files`.
#![tactic(auto)]

ghost use Rattle.std.specs.Prelude.{◌≡◌};
ghost use Rattle.rules.specs.Chain.{granted};
ghost use Rattle.rules.specs.Operations.{judge_all, fresh_starts, rejudging};
ghost use Rattle.claims.specs.Point2.{MayBeJudged};
ghost use Rattle.claims.specs.Point3.{NewerWorse};
ghost use Rattle.rejudge.specs.Carried.{rejudged};
ghost use Rattle.mission.specs.Judged.{JudgedRight, CarriedRight};

use rules::{Answer, CarryRefusal, Picos, Refusal, Rejudgement, Table};

// Point 2, all tasks judged fresh: RULES 5.5 of each.
pub fn judged_fresh(t: Table) -> Result<[Answer; 32], Refusal>
    ensures value { result ≡ granted (judge_all t fresh_starts).refusal (judge_all t fresh_starts).answers }
    ensures judged_right { MayBeJudged t → JudgedRight t result }
{
    judge::judge_all(t, [Picos(0); 32])
}

// Point 3, a newer table after an older one: from the starts of RULES 6.5 the answers are as RULES 6.6 and 6.7 say.
pub fn carried(older: Table, newer: Table) -> Result<Rejudgement, CarryRefusal>
    ensures value { result ≡ rejudged (rejudging older newer) }
    ensures carried_right { NewerWorse older newer → CarriedRight older newer result }
{
    rejudge::judge_carried(older, newer)
}
