// Runs of bytes put into lent bytes, and lent bytes zeroed: nothing where they are too few.
#![tactic(auto)]

ghost use Rattle.std.specs.Prelude.{◌≡◌};
ghost use Rattle.storing.specs.Storing.{stored_at, cleared};

// The section filler: puts n bytes of the row, from `from` on, at an offset of the part, and nothing where the row or the part is too short.
// What is lent is just the part of the buffer that the section lies in.
pub fn fill(part: &mut [u8], to: usize, row: &[u8], from: usize, n: usize)
    ensures part { part.new ≡ stored_at part.old to row.now from n }
{
    let Some(run) = row.get(from..from.saturating_add(n)) else {
        return;
    };
    // Kept: not proved: `part.get_mut(..)`, after which a proof knows the length of the part but not its bytes.
    let end = to.saturating_add(n);
    if end <= part.len() {
        part[to..end].copy_from_slice(run);
    }
}

// Zeroes the first n bytes, where there are so many.
pub fn clear(bytes: &mut [u8], n: usize)
    ensures cleared { bytes.new ≡ cleared n bytes.old }
{
    if n <= bytes.len() {
        bytes[..n].fill(0);
    }
}
