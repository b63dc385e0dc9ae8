// The bench board and what is handed in with a packet, found in a caller's bytes.
// Kept: the C interface: the places and numbers are those of include/halzuqeen_bench.h.
ghost use Rattle.std.specs.Prelude.{cond, None, Some, ◌≡◌, ◌+◌, ◌≤◌, eqb, leb, length};
ghost use Rattle.bench_c.specs.BoardBytes.{call_outcome_at, is_call_outcome, silicon_in, registers_in, is_board, transfer_outcome_in, event_in, is_event, packet_in, is_packet};

use bench_calls::{Call, CallOutcome, Registers};
use flow::{LineEvent, Packet, Reply, Silicon, TransferOutcome};

// A flag; none where its byte is neither 0 nor 1.
fn flag_in(b: u8) -> Option<bool>
    ensures { result ≡ cond (leb b 1) (Some (eqb b 1)) None }
{
    match b {
        0 => Some(false),
        1 => Some(true),
        _ => None,
    }
}

// Kept: no plainer: ten bytes at two places, inside a board's and alone, so no array of a length holds both.
// How a call will go, from a place on; none where its bytes are no call's.
pub(crate) fn call_outcome_at(bytes: &[u8], at: usize) -> Option<CallOutcome>
    requires { at + 10 ≤ length bytes.now }
    ensures { result ≡ cond (is_call_outcome bytes.now at) (Some (call_outcome_at bytes.now at)) None }
{
    Some(CallOutcome {
        busy_reads: lent::word_at(bytes, at),
        succeeds: flag_in(bytes[at + 4])?,
        sysarg: lent::word_at(bytes, at + 5),
        new_level: flag_in(bytes[at + 9])?,
    })
}

fn silicon_in(bytes: &[u8; 46]) -> Silicon
    ensures { result ≡ silicon_in bytes.now }
{
    Silicon {
        idcode: lent::word_at(bytes, 0),
        high: bytes[4],
        low: bytes[5],
        revision: bytes[6],
        family: bytes[7],
        privileged_sum: lent::word_at(bytes, 8),
    }
}

// The registers that a board's bytes hold; none where they are no board's.
#[tactic(auto, unfolding(crate::specs::BoardBytes::registers_in))]
pub(crate) fn registers_in(bytes: &[u8; 46]) -> Option<Registers>
    ensures { result ≡ cond (is_board bytes.now) (Some (registers_in bytes.now)) None }
{
    let running = match bytes[34] {
        0 => None,
        1 => Some(Call {
            outcome: call_outcome_at(bytes, 35)?,
            number: bytes[45],
        }),
        _ => return None,
    };
    Some(Registers {
        silicon: silicon_in(bytes),
        stored: bytes[12],
        effect: bytes[13],
        sysarg: lent::word_at(bytes, 14),
        sysreq: lent::word_at(bytes, 18),
        test_mode: lent::word_at(bytes, 22),
        tar: lent::word_at(bytes, 26),
        posted: lent::word_at(bytes, 30),
        running,
    })
}

fn transfer_outcome_in(n: u8) -> Option<TransferOutcome>
    ensures { result ≡ cond (leb n 7) (Some (transfer_outcome_in n)) None }
{
    match n {
        0 => Some(TransferOutcome::Clean),
        1 => Some(TransferOutcome::Waits),
        2 => Some(TransferOutcome::Faults),
        3 => Some(TransferOutcome::WrongParity),
        4 | 5 => Some(TransferOutcome::Silent(n == 5)),
        6 | 7 => Some(TransferOutcome::Noisy(n == 7)),
        _ => None,
    }
}

// The event that bytes hold; none where they are no event's.
pub(crate) fn event_in(bytes: &[u8; 11]) -> Option<LineEvent>
    ensures { result ≡ cond (is_event bytes.now) (Some (event_in bytes.now)) None }
{
    Some(LineEvent {
        outcome: transfer_outcome_in(bytes[0])?,
        filler: Reply {
            ack: bytes[1],
            word: lent::word_at(bytes, 2),
            parity: bytes[6],
        },
        other: lent::word_at(bytes, 7),
    })
}

// The packet that an outcome's bytes hold; none where they are no packet's.
pub(crate) fn packet_in(bytes: &[u8; 8]) -> Option<Packet>
    ensures { result ≡ cond (is_packet bytes.now) (Some (packet_in bytes.now)) None }
{
    match bytes[0] {
        1 => Some(Packet::Xres),
        2 => Some(Packet::LineReset),
        3 => Some(Packet::Read(bytes[1])),
        4 => Some(Packet::Write(bytes[1], lent::word_at(bytes, 4), bytes[2])),
        _ => None,
    }
}
