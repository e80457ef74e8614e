// Table files: writing. What is refused; what is written is that of `encode` and `seal`.
#![tactic(auto)]

ghost use Rattle.std.specs.Prelude.{◌≡◌};
ghost use Rattle.writer.specs.Answers.{Wrote};

use chain::refuse_if;
use encode::put_body;
use rules::{Refusal, Table};
use seal::put_trailer;

// Writing: 5 to 11 and 16, then 15. No byte is touched before all of them are passed. What is answered is how many bytes are written.
pub fn write(t: Table, out: &mut [u8]) -> Result<usize, Refusal>
    ensures { Wrote t out.old result out.new }
{
    checks::check_lent(&t)?;
    let n = places::file_length(t.fourth, t.cores, t.tasks);
    refuse_if(out.len() < n, 15, 0)?;
    put_body(out, &t);
    put_trailer(out, n - 12);
    Ok(n)
}
