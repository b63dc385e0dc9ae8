// What is at an index of steps 5 to 8: in steps 5 and 7 rows and locks are lent on as middle parts of the image.
ghost use Rattle.std.specs.Prelude.{◌≡◌, ◌+◌, ◌*◌, ◌/◌, ◌<◌, length, get_or};
ghost use Rattle.flow.specs.Sequence.{in_turn, program_row, verify_row, verify_macro, macro_down, lock_and_verify, end_move};
ghost use Rattle.image.specs.Image.{image_of};
ghost use Rattle.parts.specs.Sizes.{row_bytes_of, macros_of, rows_of, locks_in};

use crate::loaded::Loaded;
use call_moves::read_move;
use flow::{Move, Purpose};
use latch_moves::{lock_move, row_move};

impl<'a> Loaded<'a> {
    // The words of a row.
    pub(crate) fn row_words(&self) -> u32
        ensures { result ≡ row_bytes_of self.now.geometry / 4 }
    {
        u32::from(self.geometry.part.row_bytes) / 4
    }

    // The words of macro m's locks.
    pub(crate) fn lock_words(&self, m: u32) -> u32
        ensures count { result ≡ locks_in self.now.geometry m / 4 }
        ensures bounded { result < 2048 }
    {
        (parts::locks_in(self.geometry, m) / 4) as u32
    }

    // Step 5.
    #[tactic(auto, using(crate::proofs::Sections::row_place))]
    pub(crate) fn rows_move(&self, j: u32) -> Move
        requires { let l = self.now in j < rows_of l.geometry * (26 + 2 * (row_bytes_of l.geometry / 4)) }
        ensures { let l = self.now in result ≡ get_or (in_turn (program_row (image_of l.geometry l.header l.bytes.now)) 0 (rows_of l.geometry)) j end_move }
    {
        let p = self.geometry.part;
        let each = 26 + 2 * self.row_words();
        let r = j / each;
        let size = usize::from(p.row_bytes);
        let start = r as usize * size;
        let row = &self.bytes[start..start + size];
        let m = r / u32::from(p.rows_per_macro);
        row_move(row, p.sysreq, r as u16, m as u8, j % each)
    }

    // Step 6.
    #[tactic(auto, using(crate::proofs::Sections::verifying))]
    pub(crate) fn verify_move(&self, j: u32) -> Move
        requires { let l = self.now in j < rows_of l.geometry * (row_bytes_of l.geometry / 4 * 3) }
        ensures { let l = self.now in result ≡ get_or (in_turn (verify_row l.geometry) 0 (rows_of l.geometry)) j end_move }
    {
        let each = self.row_words() * 3;
        let r = j / each;
        let at = 4 * (j % each / 3);
        let start = r * u32::from(self.geometry.part.row_bytes);
        read_move(6, start + at, Purpose::FlashWord(r, at), j % each % 3)
    }

    // Step 8 of macro m.
    #[tactic(auto, using(crate::proofs::Sections::checking))]
    fn check_move(&self, m: u32, j: u32) -> Move
        requires low { m < macros_of self.now.geometry }
        requires inside { j < locks_in self.now.geometry m / 4 * 3 }
        ensures { result ≡ get_or (verify_macro self.now.geometry m) j end_move }
    {
        let p = self.geometry.part;
        let at = 4 * (j / 3);
        read_move(
            8,
            p.locks + m * p.locks_step + at,
            Purpose::LockWord(m, at),
            j % 3,
        )
    }

    // Step 7 of macro m, then step 8 of it.
    #[tactic(auto, using(crate::proofs::Sections::locks_inside))]
    fn macro_move(&self, m: u32, j: u32) -> Move
        requires low { m < macros_of self.now.geometry }
        requires inside { j < 24 + 5 * (locks_in self.now.geometry m / 4) }
        ensures { let l = self.now in result ≡ get_or (lock_and_verify (image_of l.geometry l.header l.bytes.now) m) j end_move }
    {
        let g = self.geometry;
        let n = 24 + 2 * self.lock_words(m);
        if n <= j {
            return self.check_move(m, j - n);
        }
        let start = parts::flash_size(g) + parts::lock_start(g, m);
        let locks = &self.bytes[start..start + parts::locks_in(g, m)];
        lock_move(locks, g.part.sysreq, m as u8, self.header.level, j)
    }

    // Steps 7 and 8 but for the level, from the highest macro down to 0: all have as many moves as macro 0.
    pub(crate) fn macros_move(&self, j: u32) -> Move
        requires { let l = self.now in j < macros_of l.geometry * (24 + 5 * (locks_in l.geometry 0 / 4)) }
        ensures { let l = self.now in
            let i = image_of l.geometry l.header l.bytes.now in
            result ≡ get_or (in_turn (λ k. lock_and_verify i (macro_down l.geometry k)) 0 (macros_of l.geometry)) j end_move }
    {
        let each = 24 + 5 * self.lock_words(0);
        let top = u32::from(self.geometry.macros) - 1;
        self.macro_move(top - j / each, j % each)
    }
}
