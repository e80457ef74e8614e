// Judgement of a newer table after an older one, from the older bounds where that is sound: the refusals of both. The answers are `after`'s.
#![tactic(auto)]

ghost use Rattle.std.specs.Prelude.{◌≡◌};
ghost use Rattle.rejudge.specs.Carried.{about, Carried};

use rules::{CarryRefusal, Faulty, Refusal, Rejudgement, Table};

// An answer about one of the two.
pub fn about<T>(faulty: Faulty, answered: Result<T, Refusal>) -> Result<T, CarryRefusal>
    ensures { result ≡ about faulty answered }
{
    answered.map_err(|refusal| CarryRefusal { refusal, faulty })
}

// The newer table after the older one, from the older bounds where that is sound; or why nothing is judged, and which of the two that is about.
pub fn judge_carried(older: Table, newer: Table) -> Result<Rejudgement, CarryRefusal>
    ensures { Carried older newer result }
{
    about(Faulty::Older, admit::table(older))?;
    about(Faulty::Newer, admit::table(newer))?;
    let carried = order::worsens(older, newer);
    let answers = after::answers_after(older, newer, carried);
    Ok(Rejudgement { carried, answers })
}
