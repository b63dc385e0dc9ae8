// The line that a dry run prints.
ghost use Rattle.std.specs.Prelude.{◌++◌, ◌≡◌, ◌+◌, ◌≤◌, length, take, drop};
ghost use Rattle.dry.specs.Runs.{Spells, LineOf};
ghost use Rattle.io.specs.Counts.{IsPrefixLen};

use crate::Ran;

// Puts bytes into a line, from `at` on, and gives the place after them.
fn put(line: &mut [u8], at: usize, bytes: &[u8]) -> usize
    requires { (at + length bytes.now ≤ length line.old) × (length line.old ≡ 32) }
    ensures value { result ≡ at + length bytes.now }
    ensures line_after { take result line.new ≡ take at line.old ++ bytes.now }
    ensures line_unchanged { drop result line.new ≡ drop result line.old }
{
    let end = at + bytes.len();
    line[at..end].copy_from_slice(bytes);
    end
}

// Puts a word, a number's digits and a line feed at the start of a line, and gives the place after them.
fn spell_line(word: &[u8], n: u64, line: &mut [u8]) -> usize
    requires { (length word.now ≤ 8) × (length line.old ≡ 32) }
    ensures prefix_len { IsPrefixLen result line.new × Spells word.now n (take result line.new) }
    ensures line_unchanged { drop result line.new ≡ drop result line.old }
{
    let mut number = [0u8; 20];
    let k = io::decimal(n, &mut number);
    let first = put(line, 0, word);
    let second = put(line, first, &number[..k]);
    put(line, second, b"\n")
}

// Puts the line of a dry run at the start of `line`, and gives its length.
pub(crate) fn ran_line(ran: Ran, line: &mut [u8; 32]) -> usize
    ensures prefix_len { IsPrefixLen result line.new × LineOf ran (take result line.new) }
    ensures line_unchanged { drop result line.new ≡ drop result line.old }
{
    match ran {
        Ran::Done(n) => spell_line(b"done ", u64::from(n), line),
        Ran::Refused(n) => spell_line(b"refused ", u64::from(n), line),
    }
}
