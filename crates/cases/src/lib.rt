// What the programs share: numbers and bytes of an input, a digest of bytes (tests/vectors/README.md). No contract can say what standard input
// gives; of an input whose bytes are known, `read_full` says which it read.
#![tactic(auto)]

ghost use Rattle.std.specs.Io.KnownBytes.{Consumes, IsAtEnd};
ghost use Rattle.std.specs.Prelude.{◌≡◌, ◌<◌, ◌≤◌, length, take, All, IfOk, OnErr};
ghost use Rattle.cases.specs.Fnv.{fnv_step, fnv};
ghost use Rattle.cases.specs.Reads.{ReadBefore, TakesAtMost};

use std::io;
use std::io::Read;

// A number of an input; `ended` where the input ended before the byte after its last digit.
// Kept: no plainer: the number at the end of an input counts too, so an Option would lose it, and an enum would have the value twice.
#[derive(Clone, Copy)]
pub struct Number {
    pub ended: bool,
    pub value: u32,
}

// The input's next byte; None at its end.
fn next_byte<R: Read>(input: &mut R) -> io::Result<Option<u8>>
    ensures taken { TakesAtMost 1 (R.remaining input.old) (R.remaining input.new) }
{
    let mut one = [0u8; 1];
    let got = input.read(&mut one)?;
    Ok(if got == 0 { None } else { Some(one[0]) })
}

// A digit more, and `most` where that is more than `most`.
fn grown(value: u32, digit: u8, most: u32) -> u32
    ensures { result ≤ most }
{
    value
        .saturating_mul(10)
        .saturating_add(u32::from(digit))
        .min(most)
}

// The input's next number, with the byte after it; at most `most`. An Err is the input's own, and what was read until then is lost.
pub fn read_number<R: Read>(input: &mut R, most: u32) -> io::Result<Number>
    ensures bounded { IfOk result (λ n. n.value ≤ most) }
    ensures taken { TakesAtMost 20 (R.remaining input.old) (R.remaining input.new) }
{
    let mut value: u32 = 0;
    for _ in 0..20u32 {
        match next_byte(input)? {
            Some(c) if c.is_ascii_digit() => value = grown(value, c - b'0', most),
            Some(_) => return Ok(Number {
                ended: false,
                value,
            }),
            None => return Ok(Number { ended: true, value }),
        }
    }
    Ok(Number {
        ended: false,
        value,
    })
}

// Reads until the buffer is full or the input ends, and gives how many bytes it put at the buffer's start. An Err is the input's own: what was
// read before it stands at the buffer's start.
pub fn read_full<R: Read>(input: &mut R, buf: &mut [u8]) -> io::Result<usize>
    ensures within { IfOk result (λ n. n ≤ length buf.new) }
    ensures bytes { IfOk result (λ n. Consumes (R.remaining input.old) (R.remaining input.new) (take n buf.new)) }
    ensures end { IfOk result (λ n. n < length buf.new → IsAtEnd (R.remaining input.new)) }
    ensures err { OnErr result (ReadBefore (R.remaining input.old) (R.remaining input.new) buf.new) }
    ensures kept { length buf.new ≡ length buf.old }
{
    // Kept: no plainer: a read gives as many bytes as it likes, so no range or iterator says how far it goes.
    let mut done: usize = 0;
    while done < buf.len() {
        let n = input.read(&mut buf[done..])?;
        if n == 0 {
            return Ok(done);
        }
        done += n;
    }
    Ok(done)
}

// The digest after a byte more.
#[tactic(auto, unfolding(crate::specs::Fnv::fnv_step))]
pub fn mixed(h: u64, b: u8) -> u64
    ensures mixed { result ≡ fnv_step h b }
{
    (h ^ u64::from(b)).wrapping_mul(0x100000001B3)
}

// The FNV-1a digest of bytes.
pub fn digest(bytes: &[u8]) -> u64
    ensures digest { result ≡ fnv bytes.now }
{
    bytes.iter().fold(0xCBF29CE484222325, |h, b| mixed(h, *b))
}

// Kept: a rule of the project: no heap, so the programs read into a buffer of the greatest size and have its length.
// An array of one byte. Its contract keeps a caller's prover from writing out so long an array.
pub fn filled<const N: usize>(byte: u8) -> [u8; N]
    ensures length { N ≡ length result }
    ensures each { All (λ b. b ≡ byte) result }
{
    [byte; N]
}
