// The cases, read from standard input (tests/vectors/README.md).
use flow::Reply;
use image::Header;
use std::io;
use std::io::Read;

// Answers that stand in the place of the board's own.
#[derive(Clone, Copy)]
pub struct Override {
    pub at: u32,
    pub stride: u32,
    pub count: u32,
    pub carried: bool,
    pub reply: Reply,
}

#[derive(Clone, Copy)]
pub struct Case {
    pub header: Header,
    pub length: u32,
    pub seed: u32,
    pub leave: bool,
    pub stored: u8,
    pub privileged: u32,
    pub overrides: [Option<Override>; 2],
}

fn number(input: &mut impl Read) -> io::Result<u32> {
    let n = cases::read_number(input, 0xFFFFFFFF)?;
    Ok(n.value)
}

fn small(input: &mut impl Read) -> io::Result<u8> {
    let n = cases::read_number(input, 255)?;
    Ok(n.value as u8)
}

// The next override of a case, where it has one more.
fn read_override(input: &mut impl Read, there: bool) -> io::Result<Option<Override>> {
    if !there {
        return Ok(None);
    }
    Ok(Some(Override {
        at: number(input)?,
        stride: number(input)?,
        count: number(input)?,
        carried: number(input)? == 1,
        reply: Reply {
            ack: small(input)?,
            word: number(input)?,
            parity: small(input)?,
        },
    }))
}

// The metadata: version, high byte first, silicon ID, six bytes 0.
fn read_metadata(input: &mut impl Read) -> io::Result<[u8; 12]> {
    let [_, _, high, low] = number(input)?.to_be_bytes();
    let mut metadata = [0; 12];
    metadata[0] = high;
    metadata[1] = low;
    for b in metadata[2..6].iter_mut() {
        *b = small(input)?;
    }
    Ok(metadata)
}

pub(crate) fn read_case(input: &mut impl Read, part: u8) -> io::Result<Case> {
    let macros = small(input)?;
    let length = cases::read_number(input, 131200)?.value;
    let seed = number(input)?;
    let sum = cases::read_number(input, 65535)?.value as u16;
    let metadata = read_metadata(input)?;
    let level = small(input)?;
    let leave = number(input)? == 1;
    let stored = small(input)?;
    let privileged = number(input)?;
    let count = number(input)?;
    Ok(Case {
        header: Header {
            part,
            macros,
            sum,
            metadata,
            level,
        },
        length,
        seed,
        leave,
        stored,
        privileged,
        overrides: [
            read_override(input, 1 <= count)?,
            read_override(input, 2 <= count)?,
        ],
    })
}
