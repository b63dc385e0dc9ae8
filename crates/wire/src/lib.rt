// SWD packets: the request byte, the data parity bit and the reading of an acknowledgement (document 01, 'Wire').
#![tactic(auto)]

ghost use Rattle.std.specs.Prelude.{true, ◌≡◌, ◌+◌, ◌*◌, ◌%◌, ◌<◌};
ghost use Rattle.wire.specs.Wire.{parity, apndp, address, from_bits, four_bits, request_byte, ack_of, is_ack};

// A register of the debug or access port (004, Table 3-2).
#[derive(Clone, Copy, PartialEq, Eq, Debug)]
pub enum Register {
    Idcode,
    Abort,
    CtrlStat,
    Select,
    Csw,
    Tar,
    Drw,
}

// The direction of a transfer.
#[derive(Clone, Copy, PartialEq, Eq, Debug)]
pub enum Access {
    Read,
    Write,
}

// What an acknowledgement says.
#[derive(Clone, Copy, PartialEq, Eq, Debug)]
pub enum Ack {
    Okay,
    Wait,
    Fault,
    // Nobody drives the wire.
    Silence,
    Noise,
}

// The parity bit of a word: 1 when the word has an odd number of ones.
pub fn parity_of(word: u32) -> u8
    ensures parity { result ≡ parity word }
{
    (word.count_ones() % 2) as u8
}

// APnDP and the two address bits of a register, where a request byte's four bits have them.
fn register_bits(r: Register) -> u8
    ensures { result ≡ apndp r + 4 * address r }
{
    match r {
        Register::Idcode | Register::Abort => 0,
        Register::CtrlStat => 4,
        Register::Select => 8,
        Register::Csw => 1,
        Register::Tar => 5,
        Register::Drw => 13,
    }
}

// The four bits that a request byte's parity covers.
fn four_bits(r: Register, a: Access) -> u8
    ensures equal { result ≡ from_bits (four_bits r a) }
    ensures small { result < 16 }
{
    let bits = register_bits(r);
    match a {
        Access::Read => bits + 2,
        Access::Write => bits,
    }
}

// The request byte of a transfer.
pub fn request_byte(r: Register, a: Access) -> u8
    ensures request { result ≡ request_byte r a }
{
    let bits = four_bits(r, a);
    let parity = parity_of(u32::from(bits));
    129 + 2 * bits + 32 * parity
}

// What the number of an acknowledgement says.
impl From<u8> for Ack {
    ghost from_gives = { λ n r. (r ≡ ack_of n) × (is_ack r n ≡ true) };

    fn from(n: u8) -> Ack {
        match n {
            1 => Ack::Okay,
            2 => Ack::Wait,
            4 => Ack::Fault,
            7 => Ack::Silence,
            0 | 3 | 5 | 6 | 8..=255 => Ack::Noise,
        }
    }
}

// The reading of an acknowledgement.
pub fn read_ack(n: u8) -> Ack
    ensures ack { result ≡ ack_of n }
    ensures told { is_ack result n ≡ true }
{
    Ack::from(n)
}
