// One of several texts that stand in one, with a mark between each two.
#![tactic(auto)]

ghost use Rattle.std.specs.Prelude.{◌≡◌};
ghost use Rattle.pieces.specs.Pieces.{piece_of};

// The piece in place k, counted from 0; the last where there are fewer.
pub fn piece(s: &[u8], mark: u8, k: u8) -> &[u8]
    ensures { result.now ≡ piece_of mark s.now k }
{
    let mut left = k;
    let mut start = 0;
    for (i, byte) in s.iter().enumerate() {
        if *byte == mark {
            if left == 0 {
                return &s[start..i];
            }
            left -= 1;
            start = i + 1;
        }
    }
    &s[start..]
}
