// The digest of all packets, with the steps that must be refused among them.
use flow::{Answer, Packet, Reply};
use session::{Given, Session};

pub(crate) fn is_transfer(packet: Packet) -> bool {
    matches!(packet, Packet::Read(_) | Packet::Write(_, _, _))
}

fn mixed_word(h: u64, w: u32) -> u64 {
    w.to_le_bytes().iter().fold(h, |h, b| cases::mixed(h, *b))
}

// The digest after a packet more.
fn mixed_packet(h: u64, packet: Packet) -> u64 {
    match packet {
        Packet::Xres => cases::mixed(h, 0),
        Packet::LineReset => cases::mixed(h, 1),
        Packet::Read(byte) => cases::mixed(cases::mixed(h, 2), byte),
        Packet::Write(byte, w, parity) => {
            let asked = cases::mixed(cases::mixed(h, 3), byte);
            cases::mixed(mixed_word(asked, w), parity)
        }
    }
}

// The digest after a step that is refused; any other outcome leaves a 0 there.
// Kept: what may not change: the 0 goes into the digest that is printed.
fn mixed_refusal(h: u64, given: Given) -> u64 {
    let number = match given.outcome {
        Ok(_) => 0,
        Err(refusal) => refusal.number(),
    };
    cases::mixed(cases::mixed(h, 240), number)
}

// An answer of the wrong kind.
fn wrong_kind(packet: Packet) -> Answer {
    if is_transfer(packet) {
        return Answer::ResetDone;
    }
    Answer::Transferred(Reply {
        ack: 1,
        word: 0,
        parity: 0,
    })
}

// The digest after a request; after each 509th, also of two steps that are refused: the image a byte short, then the wrong kind of answer.
pub(crate) fn after_request(
    h: u64,
    s: Session,
    image: &[u8],
    packet: Packet,
    a: Answer,
    turn: u32,
) -> u64 {
    let asked = mixed_packet(h, packet);
    if turn % 509 != 0 {
        return asked;
    }
    let cut = image.len().min(1);
    let short = session::step(s, &image[cut..], a);
    let other = session::step(s, image, wrong_kind(packet));
    mixed_refusal(mixed_refusal(asked, short), other)
}
