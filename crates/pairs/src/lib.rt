// Digit pairs and line ends, at a position of a text: for every text format (document 01, 'Hex text').
#![tactic(auto)]

ghost use Rattle.std.specs.Prelude.{◌≡◌, ◌+◌, ◌*◌, ◌≤◌, length};
ghost use Rattle.std.proofs.lemmas.List.Edits.{sets};
ghost use Rattle.pairs.specs.Digits.{digit_of};
ghost use Rattle.pairs.specs.Spelling.{digits_from, front, pairs_at, run_of, pair_run_of, run_told, row_after, line_end};

mod table;

// The value of a hex digit, by the table.
fn digit(table: &[u8; 256], c: u8) -> u8
    requires { table.now ≡ digits_from 0 256 }
    ensures { result ≡ digit_of c }
{
    table[usize::from(c)]
}

// Spells a pair into each byte of the row, up to the first that is none: the sum of the bytes, in an `Err` where not all are pairs.
fn spell_pairs(row: &mut [u8], text: &[u8]) -> Result<u32, u32>
    requires { (2 * length row.old ≤ length text.now) × (length row.old ≤ 260) }
    ensures value { run_told result ≡ run_of text.now 0 (length row.old) }
    ensures row { row.new ≡ sets row.old 0 (front (pairs_at text.now 0 (length row.old))) }
{
    let table = table::DIGITS;
    let mut sum = 0;
    for (i, b) in row.iter_mut().enumerate() {
        let h = digit(&table, text[2 * i]);
        let l = digit(&table, text[2 * i + 1]);
        if 15 < h || 15 < l {
            return Err(sum);
        }
        *b = 16 * h + l;
        sum += u32::from(*b);
    }
    Ok(sum)
}

// Spells k pairs from p on into the row, up to the first that is none: the sum of the bytes, in an `Err` where not all are pairs. Nothing, and
// `Err(0)`, where they lie past the text or the row.
pub fn spell(row: &mut [u8], text: &[u8], p: usize, k: usize) -> Result<u32, u32>
    ensures run { run_told result ≡ pair_run_of text.now p k (length row.old) }
    ensures row { row.new ≡ row_after row.old text.now p k }
{
    if 260 < k || row.len() < k || text.len() < p || text.len() - p < 2 * k {
        return Err(0);
    }
    spell_pairs(&mut row[..k], &text[p..])
}

// How many characters the line end at a position has: LF 1, CR LF 2, none 0.
#[tactic(auto, unfolding(crate::specs::Spelling::line_end))]
pub fn line_end(text: &[u8], at: usize) -> usize
    ensures end { result ≡ line_end text.now at }
{
    match text.get(at..) {
        Some([b'\n', ..]) => 1,
        Some([b'\r', b'\n', ..]) => 2,
        _ => 0,
    }
}
