// Lent bytes: the first of them, and one of them altered; little-endian numbers of 2, 4 and 8 bytes in them, and the bytes of such numbers stored.
#![tactic(auto)]

ghost use Rattle.std.specs.Prelude.{◌≡◌, ◌+◌, ◌≤◌, length, take, set};
ghost use Rattle.std.proofs.lemmas.List.Edits.{sets};
ghost use Rattle.laws.specs.Idioms.{number_in, bytes_of, part};

// The first n bytes, or all where there are fewer.
pub fn front(s: &[u8], n: usize) -> &[u8]
    ensures { result.now ≡ take n s.now }
{
    if n <= s.len() { &s[..n] } else { s }
}

// Byte i becomes b, where there is one.
pub fn alter(s: &mut [u8], i: usize, b: u8)
    ensures { s.new ≡ set s.old i b }
{
    if s.len() <= i {
        return;
    }
    s[i] = b;
}

// The numbers that two, four and eight bytes give.
pub fn le16(s: &[u8], at: usize) -> u16
    requires { at + 2 ≤ length s.now }
    ensures { result ≡ number_in (part s.now at 2) }
{
    u16::from_le_bytes(*s[at..].first_chunk().unwrap())
}

pub fn le32(s: &[u8], at: usize) -> u32
    requires { at + 4 ≤ length s.now }
    ensures { result ≡ number_in (part s.now at 4) }
{
    u32::from_le_bytes(*s[at..].first_chunk().unwrap())
}

pub fn le64(s: &[u8], at: usize) -> u64
    requires { at + 8 ≤ length s.now }
    ensures { result ≡ number_in (part s.now at 8) }
{
    u64::from_le_bytes(*s[at..].first_chunk().unwrap())
}

// The n lowest bytes of v, from a place on.
pub fn put(out: &mut [u8], at: usize, v: u64, n: usize)
    requires { at + n ≤ length out.old }
    ensures { out.new ≡ sets out.old at (bytes_of n v) }
{
    let mut rest = v;
    for byte in &mut out[at..at + n] {
        *byte = (rest % 256) as u8;
        rest /= 256;
    }
}
