// A chain of refusals as code walks it (RULES 9.1): each link by `?`, and the first place at fault of a link that has many.
#![tactic(auto)]

ghost use Rattle.std.specs.Prelude.{◌≡◌, ◌≤◌, ℕ, Bool, Err};
ghost use Rattle.rules.specs.Chain.{refused, given, first, granted};

use rules::Refusal;

// The refusal with this number and place.
pub fn refuse<T>(number: u8, place: u8) -> Result<T, Refusal>
    ensures { result ≡ Err (refused number place) }
{
    Err(Refusal { number, place })
}

// It, if something is at fault there.
pub fn refuse_if(fault: bool, number: u8, place: u8) -> Result<(), Refusal>
    requires { 1 ≤ number }
    ensures { result ≡ granted (given number place fault) tt }
{
    if fault {
        return refuse(number, place);
    }
    Ok(())
}

// It with the first place at fault, of places 1 to n.
pub fn refuse_first<F: Fn(u8) -> bool>(number: u8, n: u8, fault: F) -> Result<(), Refusal>
    requires number { 1 ≤ number }
    requires callable { (k : ℕ) → 1 ≤ k → k ≤ n → F.pre fault k }
    ensures { (test : ℕ → Bool) → ((k : ℕ) (b : Bool) → 1 ≤ k → k ≤ n → F.post fault k b → b ≡ test k) → result ≡ granted (first number test n) tt }
{
    for i in 0..n {
        let k = i + 1;
        refuse_if(fault(k), number, k)?;
    }
    Ok(())
}
