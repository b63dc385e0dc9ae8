// Single moves and the calls made of them: what is at an index of each list of moves that is the same for every image. A call's functions
// take SYSREQ's address for the geometry that has it, and give the end move where it is over 0x7FFFFFFF.
#![tactic(auto)]

ghost use Rattle.std.specs.Prelude.{[], ◌∷◌, ◌++◌, ◌≡◌, ◌<◌, ◌≤◌, get_or};
ghost use Rattle.flow.specs.Sequence.{move, key, write, read, call, listed, acquire, silicon, privileged, end_move};
ghost use Rattle.flow.specs.declared.Purpose.TheVariants.{Sent};
ghost use Rattle.call_moves.specs.MoveAt.{MoveAt, in_reach, ImoCount, opening_count};
ghost use Rattle.parts.specs.Sizes.{sysreq_of};

mod sysreq;

use flow::{Move, Purpose, Request};
use parts::{Geometry, PARAMS};
use sysreq::Sysreq;

// A move whose answer is not judged.
fn sent(step: u8, request: Request) -> Move
    ensures { result ≡ move step request Sent }
{
    Move {
        step,
        request,
        purpose: Purpose::Sent,
    }
}

// The move past the end of every list.
pub fn end_move() -> Move
    ensures end { result ≡ end_move }
{
    sent(9, Request::Xres)
}

// The key word of a command.
pub fn key_of(c: u8) -> u32
    ensures key { result ≡ key c }
{
    0xB6 + (0xD3 + u32::from(c)) * 256
}

#[tactic(auto, unfolding(flow::specs::Sequence::write))]
fn write_move(step: u8, a: u32, w: u32, j: u32) -> Move
    ensures { result ≡ get_or (write step a w) j end_move }
{
    match j {
        0 => sent(step, Request::WriteTar(a)),
        1 => sent(step, Request::WriteDrw(w)),
        _ => end_move(),
    }
}

#[tactic(auto, unfolding(flow::specs::Sequence::read))]
pub fn read_move(step: u8, a: u32, p: Purpose, j: u32) -> Move
    ensures found { result ≡ get_or (read step a p) j end_move }
{
    match j {
        0 => sent(step, Request::WriteTar(a)),
        1 => sent(step, Request::ReadDrw),
        2 => Move {
            step,
            request: Request::ReadDrw,
            purpose: p,
        },
        _ => end_move(),
    }
}

pub fn call_move(sysreq: u32, step: u8, c: u8, w: u32, j: u32) -> Move
    ensures found { MoveAt sysreq (λ g. call g step c w) j result }
{
    let Some(sysreq) = Sysreq::new(sysreq) else {
        return end_move();
    };
    sysreq.call_move(step, c, w, j)
}

// A listed call with one word.
#[tactic(auto, using(crate::proofs::Steps::pieces))]
pub fn one_move(sysreq: u32, step: u8, c: u8, w: u32, j: u32) -> Move
    ensures found { MoveAt sysreq (λ g. listed g step c (w ∷ [])) j result }
{
    let Some(sysreq) = Sysreq::new(sysreq) else {
        return end_move();
    };
    match j {
        0..=1 => write_move(step, PARAMS, w, j),
        _ => sysreq.call_move(step, c, PARAMS, j - 2),
    }
}

// Steps 4 and 9.
#[tactic(auto, using(crate::proofs::Steps::pieces))]
pub fn privileged_move(sysreq: u32, step: u8, p: Purpose, j: u32) -> Move
    ensures found { MoveAt sysreq (λ g. privileged g step p) j result }
{
    let Some(sysreq) = Sysreq::new(sysreq) else {
        return end_move();
    };
    match j {
        0..=9 => sysreq.call_move(step, 0x0B, key_of(0x0B) + 0x80000000, j),
        _ => read_move(step, sysreq.at + 4, p, j - 10),
    }
}

// The moves of the call for IMO.
#[tactic(auto, unfolding(flow::specs::Sequence::imo_call, flow::specs::Sequence::call, flow::specs::Sequence::write, flow::specs::Sequence::read))]
fn imo_moves(imo: u8) -> u32
    ensures count { ImoCount imo result }
    ensures bounded { result ≤ 10 }
{
    if imo == 0 { 0 } else { 10 }
}

// Steps 1 and 2.
#[tactic(auto, using(crate::proofs::Steps::identify))]
pub fn identify_move(g: Geometry, p: Purpose, j: u32) -> Move
    ensures found { result ≡ in_reach (sysreq_of g) (get_or (acquire g ++ silicon g p) j end_move) }
{
    let Some(sysreq) = Sysreq::new(g.part.sysreq) else {
        return end_move();
    };
    let n = 14 + imo_moves(g.part.imo);
    if j < n {
        sysreq.acquire_move(g.part.imo, j)
    } else {
        sysreq.silicon_move(p, j - n)
    }
}

// How many moves they have: after them the entries part.
#[tactic(auto, using(crate::proofs::Lengths::opening_length))]
pub fn opening_moves(g: Geometry) -> u32
    ensures count { result ≡ opening_count g }
    ensures bounded { result ≤ 40 }
{
    30 + imo_moves(g.part.imo)
}
