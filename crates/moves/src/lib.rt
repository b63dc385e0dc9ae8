// The move at an index of the programming sequence, found by arithmetic (document 01, 'Flow').
#![tactic(auto)]

ghost use Rattle.std.specs.Prelude.{◌≡◌, get_or};
ghost use Rattle.flow.specs.Sequence.{program, afterwards, sequence, end_move};
ghost use Rattle.flow.specs.declared.Entry.TheVariants.{FromOpen, FromProtected};
ghost use Rattle.image.specs.Image.{image_of};
ghost use Rattle.moves.specs.Ended.{Ended};
ghost use Rattle.moves.specs.Moves.{move_of};

mod loaded;
mod row_and_macro;

use call_moves::{
    call_move, end_move, identify_move, key_of, one_move, opening_moves, privileged_move, read_move,
};
use flow::{Entry, Move, Purpose};
use image::Header;
use loaded::Loaded;
use parts::Geometry;

// Where, among the moves of steps 4 to 9, the rows end, the flash's words, and the macros: steps 5, 6, and 7 with the locks of 8.
#[derive(Clone, Copy)]
struct Ends {
    rows: u32,
    words: u32,
    macros: u32,
}

impl<'a> Loaded<'a> {
    #[tactic(auto, using(crate::proofs::Sections::sizes))]
    fn ends(&self) -> Ends
        ensures { Ended self.now.geometry result }
    {
        let n = parts::rows(self.geometry);
        let row_words = self.row_words();
        let rows = 13 + n * (26 + 2 * row_words);
        let words = rows + n * (row_words * 3);
        let macros = words + u32::from(self.geometry.macros) * (24 + 5 * self.lock_words(0));
        Ends {
            rows,
            words,
            macros,
        }
    }

    // Steps 4 to 9.
    #[tactic(auto, using(crate::proofs::Whole::sections))]
    fn program_move(&self, j: u32) -> Move
        ensures { let l = self.now in result ≡ get_or (program (image_of l.geometry l.header l.bytes.now)) j end_move }
    {
        let p = self.geometry.part;
        let Ends {
            rows,
            words,
            macros,
        } = self.ends();
        if j < 13 {
            privileged_move(p.sysreq, 4, Purpose::Keep, j)
        } else if j < rows {
            self.rows_move(j - 13)
        } else if j < words {
            self.verify_move(j - rows)
        } else if j < macros {
            self.macros_move(j - words)
        } else if j < macros + 3 {
            read_move(8, p.level_word, Purpose::StoredLevel, j - macros)
        } else {
            privileged_move(p.sysreq, 9, Purpose::LastSum, j - macros - 3)
        }
    }

    // Step 3 from OPEN, and what follows.
    #[tactic(auto, using(crate::proofs::Whole::steps))]
    fn open_move(&self, j: u32) -> Move
        ensures { let l = self.now in result ≡ get_or (afterwards (image_of l.geometry l.header l.bytes.now) FromOpen) j end_move }
    {
        if j < 12 {
            one_move(self.geometry.part.sysreq, 3, 0x0A, key_of(0x0A), j)
        } else {
            self.program_move(j - 12)
        }
    }

    // Step 3 from PROTECTED, and what follows.
    #[tactic(auto, using(crate::proofs::Whole::steps))]
    fn reopen_move(&self, j: u32) -> Move
        ensures { let l = self.now in result ≡ get_or (afterwards (image_of l.geometry l.header l.bytes.now) FromProtected) j end_move }
    {
        let n = 10 + opening_moves(self.geometry);
        if j < 10 {
            call_move(
                self.geometry.part.sysreq,
                3,
                0x0D,
                key_of(0x0D) + 0x10000,
                j,
            )
        } else if j < n {
            identify_move(self.geometry, Purpose::Reopened, j - 10)
        } else {
            self.program_move(j - n)
        }
    }

    // The whole flow.
    #[tactic(auto, using(crate::proofs::Whole::steps))]
    fn sequence_move(&self, entry: Entry, j: u32) -> Move
        ensures { let l = self.now in result ≡ get_or (sequence (image_of l.geometry l.header l.bytes.now) entry) j end_move }
    {
        let n = opening_moves(self.geometry);
        if j < n {
            return identify_move(self.geometry, Purpose::EntryLevel, j);
        }
        match entry {
            Entry::FromOpen => self.open_move(j - n),
            Entry::FromProtected => self.reopen_move(j - n),
        }
    }
}

// The move at an index; past the end, and where the geometry is not handled or the image not of exact size, the end move.
pub fn move_at(g: Geometry, h: Header, bytes: &[u8], entry: Entry, index: u32) -> Move
    ensures found { result ≡ move_of g h bytes.now entry index }
{
    match Loaded::new(g, h, bytes) {
        Some(image) => image.sequence_move(entry, index),
        None => end_move(),
    }
}
