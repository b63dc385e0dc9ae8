// Rows of lent bytes: the test whether one is all zero (document 02, Three), and number 10 of document 01.
#![tactic(auto)]

ghost use Rattle.std.specs.Prelude.{◌≡◌, ◌%◌};
ghost use Rattle.lent.specs.Words.{total};
ghost use Rattle.rows.specs.Cancels.{row_words, cancels, some_cancels};
ghost use Rattle.rows.specs.Zeros.{zero_row};

// Whether a row is all zero, and how many of its bytes were read to say so.
// Kept: no plainer: the count says something in both cases, and a count of the whole row alone doesn't tell them apart.
#[derive(Clone, Copy, PartialEq, Eq, Debug)]
pub struct ZeroRow {
    pub all: bool,
    pub read: usize,
}

// The test whether a row is all zero: it stops at the first byte that isn't (document 02, Three).
pub fn zero_row(row: &[u8]) -> ZeroRow
    ensures zero { result ≡ zero_row row.now }
{
    match row.iter().position(|b| *b != 0) {
        Some(at) => ZeroRow {
            all: false,
            read: at + 1,
        },
        None => ZeroRow {
            all: true,
            read: row.len(),
        },
    }
}

// The sum of a row's words, modulo 2^32.
fn words_sum(row: &[u8]) -> u32
    ensures { result ≡ total (row_words row.now) % 0x100000000 }
{
    let (words, _) = row.as_chunks::<4>();
    words
        .iter()
        .fold(0u32, |sum, w| sum.wrapping_add(u32::from_le_bytes(*w)))
}

// Whether a row's words add to 0 modulo 2^32 without all being 0 (number 10). A blank row is settled without its sum.
#[tactic(auto, using(crate::proofs::Zeros::cancels_by))]
pub fn row_cancels(row: &[u8]) -> bool
    ensures cancelling { result ≡ cancels row.now }
{
    let whole = 4 * (row.len() / 4);
    !zero_row(&row[..whole]).all && words_sum(row) == 0
}

// Whether one of the first n rows cancels; a row that ends past the bytes has those that there are.
// Kept: not proved: `bytes.chunks(size).take(n).any(row_cancels)`, where size may be 0 and what is known of a chunk goes by its place.
pub fn some_cancels(bytes: &[u8], n: u32, size: usize) -> bool
    ensures cancelling { result ≡ some_cancels size n bytes.now }
{
    let mut rest = bytes;
    'rows: for _ in 0..n {
        let (row, after) = rest.split_at(size.min(rest.len()));
        if row_cancels(row) {
            return true;
        }
        rest = after;
    }
    false
}
