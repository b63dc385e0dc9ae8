// What a board and a call begin as in the programs: blank registers, and a call without mishap.
ghost use Rattle.std.specs.Prelude.{◌≡◌};
ghost use Rattle.bench_calls.specs.Beginnings.{blank, calm};

use crate::{CallOutcome, Registers};
use flow::Silicon;

impl Registers {
    // A blank board with an image's IDs, at a level.
    pub fn blank(metadata: [u8; 12], level: u8, privileged_sum: u32) -> Registers
        ensures blank { result ≡ blank metadata level privileged_sum }
    {
        let [_, _, high, low, revision, family, ..] = metadata;
        Registers {
            silicon: Silicon {
                idcode: 0x0BB11477,
                high,
                low,
                revision,
                family,
                privileged_sum,
            },
            stored: level,
            effect: level,
            sysarg: 0,
            sysreq: 0,
            test_mode: 0,
            tar: 0,
            posted: 0,
            running: None,
        }
    }
}

impl CallOutcome {
    // A call without busy reads that succeeds; its SYSARG counts only where XRES drops it.
    pub fn calm(sysarg: u32) -> CallOutcome
        ensures calm { result ≡ calm sysarg }
    {
        CallOutcome {
            busy_reads: 0,
            succeeds: true,
            sysarg,
            new_level: false,
        }
    }
}
