// The trailer after a file's other bytes, in a lent buffer.
#![tactic(auto)]

ghost use Rattle.std.specs.Prelude.{◌≡◌, ◌+◌, ◌≤◌, length, take};
ghost use Rattle.std.proofs.lemmas.List.Edits.{sets};
ghost use Rattle.rules.specs.File.{trailer};

// The trailer of the e bytes before it.
pub fn put_trailer(out: &mut [u8], e: usize)
    requires e_bound { e ≤ 65536 }
    requires e_in_bounds { e + 12 ≤ length out.old }
    ensures { out.new ≡ sets out.old e (trailer (take e out.old)) }
{
    let total = sums::sums(&out[..e]);
    lent_bytes::put(out, e, e as u64, 4);
    lent_bytes::put(out, e + 4, total.sum, 4);
    lent_bytes::put(out, e + 8, total.running, 4);
}
