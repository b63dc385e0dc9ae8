// The board's side of the wire: packets read bit by bit.
#![tactic(auto)]

ghost use Rattle.std.specs.Prelude.{◌≡◌};
ghost use Rattle.flow.specs.Exchange.{well_formed, read_at, write_at, decode};

use flow::{Packet, Request};
use wire::Register;

// Start bit 1, stop bit 0, park bit 1, and the parity bit that of the four bits between.
// Kept: no plainer: each bit is spelled as the definition `well_formed` spells it.
fn well_formed(r: u8) -> bool
    ensures { result ≡ well_formed r }
{
    r % 2 == 1 && r / 64 == 2 && r / 32 % 2 == (r / 2 % 2 + r / 4 % 2 + r / 8 % 2 + r / 16 % 2) % 2
}

// A read by APnDP and the two address bits.
// Kept: what may not change: the bits are the wire's, and the definitions `read_at` and `write_at` of flow are of any numbers.
fn read_at(ap: u8, address: u8) -> Option<Request>
    ensures { result ≡ read_at ap address }
{
    match (ap, address) {
        (0, 0) => Some(Request::ReadIdcode),
        (0, _) => None,
        (_, 3) => Some(Request::ReadDrw),
        _ => None,
    }
}

// A write by the same bits.
fn write_at(ap: u8, address: u8, w: u32) -> Option<Request>
    ensures { result ≡ write_at ap address w }
{
    match (ap, address) {
        (0, 1) => Some(Request::WriteSetup(Register::CtrlStat, w)),
        (0, 2) => Some(Request::WriteSetup(Register::Select, w)),
        (0, _) => None,
        (_, 0) => Some(Request::WriteSetup(Register::Csw, w)),
        (_, 1) => Some(Request::WriteTar(w)),
        (_, 3) => Some(Request::WriteDrw(w)),
        _ => None,
    }
}

// The request that a packet is: RnW is 1 on a read, and a write whose parity bit is not its word's is none.
#[tactic(auto, unfolding(flow::specs::Exchange::decode))]
pub fn request_in(p: Packet) -> Option<Request>
    ensures request { result ≡ decode p }
{
    match p {
        Packet::Xres => Some(Request::Xres),
        Packet::LineReset => Some(Request::LineReset),
        Packet::Read(r) if well_formed(r) && r / 4 % 2 == 1 => read_at(r / 2 % 2, r / 8 % 4),
        Packet::Write(r, w, b) if well_formed(r) && r / 4 % 2 == 0 && b == wire::parity_of(w) => {
            write_at(r / 2 % 2, r / 8 % 4, w)
        }
        _ => None,
    }
}
