// Puts the lines of an Intel hex text, one at a place (document 01, 'Hex text').
#![tactic(auto)]

ghost use Rattle.std.specs.Prelude.{◌&&◌, ◌≡◌, ◌++◌, ◌+◌, ◌-◌, ◌*◌, ◌%◌, ◌≤◌, ◌<◌, length, leb};
ghost use Rattle.std.proofs.lemmas.List.Edits.{sets};
ghost use Rattle.hex_format.specs.Written.{line_text, extended_line, end_line};
ghost use Rattle.hex_lines.specs.Lines.{capitals_from, line_put, data_put};
ghost use Rattle.lent.specs.Words.{total};
ghost use Rattle.pairs.specs.Digits.{capital as capital_of, pairs_of};

mod table;

// The capital digit of a number below 16, by the table.
fn capital(table: &[u8; 16], n: u8) -> u8
    requires { (table.now ≡ capitals_from 0 16) × (n < 16) }
    ensures { result ≡ capital_of n }
{
    table[usize::from(n)]
}

// Puts the digit pairs of bytes; their sum.
fn put_pairs(text: &mut [u8], at: usize, bytes: &[u8]) -> u32
    requires { (at + 2 * length bytes.now ≤ length text.old) × (length bytes.now ≤ 255) }
    ensures sum { result ≡ total bytes.now }
    ensures bounded { result ≤ 65025 }
    ensures text_after { text.new ≡ sets text.old at (pairs_of bytes.now) }
{
    let table = table::CAPITALS;
    let mut sum: u32 = 0;
    for (i, b) in bytes.iter().enumerate() {
        let q = at + 2 * i;
        text[q] = capital(&table, *b / 16);
        text[q + 1] = capital(&table, *b % 16);
        sum += u32::from(*b);
    }
    sum
}

// The byte that makes a line's sum 0.
fn sum_byte(sum: u32) -> u8
    ensures { result ≡ (256 - sum % 256) % 256 }
{
    ((sum % 256) as u8).wrapping_neg()
}

// Puts a line: a colon, the head, the data, the byte that makes the sum 0, CR LF.
fn put_line(text: &mut [u8], at: usize, head: [u8; 4], payload: &[u8])
    requires { (length payload.now ≤ 255) × (at + 13 + 2 * length payload.now ≤ length text.old) }
    ensures { text.new ≡ sets text.old at (line_text (head ++ payload.now)) }
{
    text[at] = b':';
    let first = put_pairs(text, at + 1, &head);
    let second = put_pairs(text, at + 9, payload);
    let end = at + 9 + 2 * payload.len();
    put_pairs(text, end, &[sum_byte(first + second)]);
    text[end + 2] = b'\r';
    text[end + 3] = b'\n';
}

// Whether n bytes have room at a place.
fn has_room(text: &[u8], at: usize, n: usize) -> bool
    ensures { result ≡ leb (at + n) (length text.now) }
{
    n <= text.len() && at <= text.len() - n
}

// Whether a data record may have so many bytes.
fn is_count(n: usize) -> bool
    ensures { result ≡ (leb n 255 && leb 1 n) }
{
    1 <= n && n <= 255
}

// Puts a data record of 1 to 255 bytes, where the text has room for it.
pub fn put_data(text: &mut [u8], at: usize, low: u16, payload: &[u8])
    ensures text { text.new ≡ data_put text.old at low payload.now }
{
    let n = payload.len();
    if is_count(n) && has_room(text, at, 13 + 2 * n) {
        let [high, low] = low.to_be_bytes();
        put_line(text, at, [n as u8, high, low, 0], payload);
    }
}

// Puts a type 4 record, where the text has room for it.
pub fn put_extended(text: &mut [u8], at: usize, upper: u16)
    ensures text { text.new ≡ line_put text.old at (extended_line upper) }
{
    if has_room(text, at, 17) {
        put_line(text, at, [2, 0, 0, 4], &upper.to_be_bytes());
    }
}

// Puts the end record, where the text has room for it.
pub fn put_end(text: &mut [u8], at: usize)
    ensures text { text.new ≡ line_put text.old at end_line }
{
    storing::fill(text, at, b":00000001FF\r\n", 0, 13);
}
