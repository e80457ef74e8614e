// A raw table of a case: little-endian numbers at fixed places, with no file around them.
ghost use Rattle.std.specs.Prelude.{◌+◌, ◌*◌, ◌≤◌, length};

use rules::{Picos, Table, Task};
use std::array::from_fn;

// The byte at a place, 0 beyond the end.
pub fn byte(s: &[u8], at: usize) -> u8 {
    if at < s.len() { s[at] } else { 0 }
}

// What stands from a place on.
pub fn from(s: &[u8], at: usize) -> &[u8] {
    &s[at.min(s.len())..]
}

// The bytes of a raw table, with 0 for those that are not there. 32 starts have fewer.
fn padded(s: &[u8]) -> [u8; 1242] {
    let mut all = [0u8; 1242];
    let n = s.len().min(1242);
    all[..n].copy_from_slice(&s[..n]);
    all
}

fn figures<const N: usize>(s: &[u8], at: usize) -> [u16; N]
    requires { at + 2 * N ≤ length s.now }
{
    from_fn(|i| lent_bytes::le16(s, at + 2 * i))
}

// 37 bytes: core 1, C 8, T 8, D 8, H 4, J 8, of which J is not looked at yet.
fn task(s: &[u8], at: usize) -> Task
    requires { at + 37 ≤ length s.now }
{
    Task {
        core: s[at],
        exec: Picos(lent_bytes::le64(s, at + 1)),
        period: Picos(lent_bytes::le64(s, at + 9)),
        deadline: Picos(lent_bytes::le64(s, at + 17)),
        requests: lent_bytes::le32(s, at + 25),
    }
}

fn tasks(s: &[u8], at: usize) -> [Task; 32]
    requires { at + 1184 ≤ length s.now }
{
    from_fn(|i| task(s, at + 37 * i))
}

// The raw table at a place of a payload. tRFC and tREFI are not looked at yet.
pub fn table(payload: &[u8], at: usize) -> Table {
    let s = padded(from(payload, at));
    Table {
        cores: s[0],
        partitions: s[1],
        tasks: s[2],
        fourth: s[3],
        timing: figures(&s, 4),
        sets: figures(&s, 42),
        task: tasks(&s, 58),
    }
}

// The number of 8 bytes at a place of a payload, as a time.
pub fn start(payload: &[u8], at: usize) -> Picos {
    let s = padded(from(payload, at));
    Picos(lent_bytes::le64(&s, 0))
}

// The 32 starts that a payload begins with.
pub fn starts(payload: &[u8]) -> [Picos; 32] {
    let s = padded(payload);
    from_fn(|i| Picos(lent_bytes::le64(&s, 8 * i)))
}
