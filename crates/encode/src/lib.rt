// A table as the bytes of its file before their trailer, into a lent buffer that has room for them. Where the parts stand is `places`'.
#![tactic(auto)]

ghost use Rattle.std.specs.Prelude.{◌≡◌, ◌+◌, ◌*◌, ◌≤◌, map, length};
ghost use Rattle.std.proofs.lemmas.List.Edits.{sets};
ghost use Rattle.laws.specs.Idioms.{joined, bytes_of};
ghost use Rattle.rules.specs.File.{record_at, body};
ghost use Rattle.encode.specs.Counts.{counts};

use rules::Table;

// The figures, two bytes each.
fn put_figures(out: &mut [u8], at: usize, figures: &[u16])
    requires few { length figures.now ≤ 255 }
    requires in_bounds { at + 2 * length figures.now ≤ length out.old }
    ensures { out.new ≡ sets out.old at (joined (map (bytes_of 2) figures.now)) }
{
    for (i, figure) in figures.iter().enumerate() {
        lent_bytes::put(out, at + 2 * i, u64::from(*figure), 2);
    }
}

// The first four bytes (RULES 7.1).
fn put_counts(out: &mut [u8], t: &Table)
    requires { 4 ≤ length out.old }
    ensures { out.new ≡ sets out.old 0 (counts t.now) }
{
    out[0] = t.cores;
    out[1] = t.partitions;
    out[2] = t.tasks;
    out[3] = t.fourth;
}

// What stands before the trailer.
pub fn put_body(out: &mut [u8], t: &Table)
    requires cores_bound { t.now.cores ≤ 8 }
    requires tasks_bound { t.now.tasks ≤ 32 }
    requires tasks_in_bounds { record_at t.now.fourth t.now.cores (t.now.tasks + 1) ≤ length out.old }
    ensures { out.new ≡ sets out.old 0 (body t.now) }
{
    put_counts(out, t);
    put_figures(out, 4, &t.timing);
    put_figures(
        out,
        places::sets_at(t.fourth),
        &t.sets[..usize::from(t.cores)],
    );
    records::put_tasks(out, t.fourth, t.cores, &t.task[..usize::from(t.tasks)]);
}
