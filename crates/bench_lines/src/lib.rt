// The board's side of the wire: its answers.
#![tactic(auto)]

ghost use Rattle.std.specs.Prelude.{◌≡◌};
ghost use Rattle.flow.specs.Exchange.{silent_reply, noisy_ack, okay_reply, wrong_parity_reply, reply_to, carried_out};

use flow::{Reply, TransferOutcome};
use wire::Ack;

// A silence: nobody drives the wire.
// Kept: what may not change: an acknowledgement is raw bits of the wire, and a noise any of 252 numbers, so replies are made with numbers.
pub fn silent_reply(filler: Reply) -> Reply
    ensures reply { result ≡ silent_reply filler }
{
    Reply { ack: 7, ..filler }
}

// The acknowledgement of a noise: any number but 1, 2, 4 and 7.
fn noisy_ack(n: u8) -> u8
    ensures { result ≡ noisy_ack n }
{
    match wire::read_ack(n) {
        Ack::Noise => n,
        _ => 0,
    }
}

// OK: a read's word with its parity; on a write, word and parity are free.
fn okay_reply(reads: bool, word: u32, filler: Reply) -> Reply
    ensures { result ≡ okay_reply reads word filler }
{
    if reads {
        Reply {
            ack: 1,
            word,
            parity: wire::parity_of(word),
        }
    } else {
        Reply { ack: 1, ..filler }
    }
}

// Wrong parity: on a read any word with the other parity bit; on a write it is an OK.
fn wrong_parity_reply(reads: bool, filler: Reply) -> Reply
    ensures { result ≡ wrong_parity_reply reads filler }
{
    if reads {
        Reply {
            ack: 1,
            parity: 1 - wire::parity_of(filler.word),
            ..filler
        }
    } else {
        Reply { ack: 1, ..filler }
    }
}

// The answer to a transfer that KILL does not silence.
// Kept: no plainer: a match on a closed enum, an answer for each variant.
pub fn reply_to(
    outcome: TransferOutcome,
    bars: bool,
    reads: bool,
    word: u32,
    filler: Reply,
) -> Reply
    ensures reply { result ≡ reply_to outcome bars reads word filler }
{
    match outcome {
        TransferOutcome::Clean | TransferOutcome::WrongParity if bars => Reply { ack: 4, ..filler },
        TransferOutcome::Clean => okay_reply(reads, word, filler),
        TransferOutcome::WrongParity => wrong_parity_reply(reads, filler),
        TransferOutcome::Waits => Reply { ack: 2, ..filler },
        TransferOutcome::Faults => Reply { ack: 4, ..filler },
        TransferOutcome::Silent(_) => silent_reply(filler),
        TransferOutcome::Noisy(_) => Reply {
            ack: noisy_ack(filler.ack),
            ..filler
        },
    }
}

// Whether a transfer of this outcome is carried out.
pub fn carries_out(outcome: TransferOutcome) -> bool
    ensures carried { result ≡ carried_out outcome }
{
    match outcome {
        TransferOutcome::Clean | TransferOutcome::WrongParity => true,
        TransferOutcome::Waits | TransferOutcome::Faults => false,
        TransferOutcome::Silent(c) | TransferOutcome::Noisy(c) => c,
    }
}
