// What goes over the wire for a request, and what kind it is (document 01, 'Wire').
#![tactic(auto)]

ghost use Rattle.std.specs.Prelude.{◌≡◌};
ghost use Rattle.flow.specs.Packets.{packet_of, is_read};

pub mod kinds;

use flow::{Packet, Request};
use wire::{Access, Register};

// A write with its word's parity.
fn write_packet(r: Register, w: u32) -> Packet
    ensures { result ≡ packet_of (Request.WriteSetup r w) }
{
    Packet::Write(wire::request_byte(r, Access::Write), w, wire::parity_of(w))
}

// What goes out for a request.
pub fn packet_of(q: Request) -> Packet
    ensures packet { result ≡ packet_of q }
{
    match q {
        Request::Xres => Packet::Xres,
        Request::LineReset => Packet::LineReset,
        Request::ReadIdcode => Packet::Read(wire::request_byte(Register::Idcode, Access::Read)),
        Request::ReadDrw => Packet::Read(wire::request_byte(Register::Drw, Access::Read)),
        Request::WriteTar(w) => write_packet(Register::Tar, w),
        Request::WriteDrw(w) => write_packet(Register::Drw, w),
        Request::WriteSetup(r, w) => write_packet(r, w),
    }
}

// Whether a request reads a word.
pub fn is_read(q: Request) -> bool
    ensures reads { result ≡ is_read q }
{
    matches!(q, Request::ReadIdcode | Request::ReadDrw)
}
