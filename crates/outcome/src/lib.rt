// What a judgement puts into three outputs that are lent.
#![tactic(auto)]

ghost use Rattle.std.specs.Prelude.{◌≡◌, ◌≤◌, take, Err};
ghost use Rattle.rules.specs.Chain.{◌or_else◌, granted, refusal_of};
ghost use Rattle.std.specs.Result.{IfErr};
ghost use Rattle.rules.specs.Results.{AllJudged};
ghost use Rattle.stored.specs.Stored.{check_outputs, Stored};

use rules::{Answer, Refusal};

// A judgement's refusal; or its first n answers in the outputs, or 255 where one is too short for them. A refusal changes nothing.
pub fn store(
    judged: Result<[Answer; 32], Refusal>,
    n: usize,
    bounds: &mut [u64],
    rounds: &mut [u64],
    by: &mut [u8],
) -> Result<(), Refusal>
    requires { n ≤ 32 }
    ensures value { (r : AllJudged) → judged ≡ granted r.refusal r.answers → result ≡ granted (r.refusal or_else check_outputs n bounds.old rounds.old by.old) tt }
    ensures stored { (r : AllJudged) → judged ≡ granted r.refusal r.answers → Stored (refusal_of result) (take n r.answers) bounds.old rounds.old by.old bounds.new rounds.new by.new }
    ensures unchanged { IfErr judged (λ r. (result ≡ Err r) × (bounds.new ≡ bounds.old) × (rounds.new ≡ rounds.old) × (by.new ≡ by.old)) }
{
    let answers = judged?;
    stored::store_answers(&answers[..n], bounds, rounds, by)
}
