// The answers that a case puts in the place of the board's own.
use crate::digest;
use crate::reading::Override;
use flow::{Answer, LineEvent, Packet, Reply, TransferOutcome};

impl Override {
    fn covers(self, transfer: u32) -> bool {
        if transfer < self.at || self.stride == 0 {
            return false;
        }
        let past = transfer - self.at;
        past % self.stride == 0 && past / self.stride < self.count
    }
}

// The override of a request, where the case has one.
pub(crate) fn override_of(
    overrides: [Option<Override>; 2],
    packet: Packet,
    transfer: u32,
) -> Option<Override> {
    if !digest::is_transfer(packet) {
        return None;
    }
    let [first, second] = overrides;
    let first = first.filter(|o| o.covers(transfer));
    first.or_else(|| second.filter(|o| o.covers(transfer)))
}

// Past its list the line lets a request through; one that the case keeps from the board is silence, not carried out.
pub(crate) fn line_at(put: Option<Override>) -> LineEvent {
    let kept = put.is_some_and(|o| !o.carried);
    LineEvent {
        outcome: if kept {
            TransferOutcome::Silent(false)
        } else {
            TransferOutcome::Clean
        },
        filler: Reply {
            ack: 7,
            word: 0,
            parity: 0,
        },
        other: 0,
    }
}

// The answer that the session hears: the board's own, or the case's where it covers a transfer.
pub(crate) fn heard(put: Option<Override>, own: Answer) -> Answer {
    put.map_or(own, |o| Answer::Transferred(o.reply))
}
