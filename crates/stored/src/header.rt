// The header: its counts, and then the index width that the count of vertices calls for. Its fields stand one behind another: the form number
// from bit 0 on, the index width from bit 4 on, the five counts from bit 9 on.
ghost use Rattle.std.specs.Prelude.{◌≡◌, Ok};
ghost use Rattle.rules.specs.Answers.{refusal_of, counts_answer_of};
ghost use Rattle.rules.specs.Refusals.{check};
ghost use Rattle.rules.specs.StoredForm.{wrong_width, header_answer};

use rules::{Counts, Refusal, Sizes};

// How many bits the header has, and how many bytes hold it.
pub const HEADER_BITS: usize = 101;

const HEADER_BYTES: usize = 13;

// A file whose header passes its checks, but for the width, and the header's counts.
#[derive(Clone, Copy)]
pub struct HeadedFile<'a> {
    pub bytes: &'a [u8],
    pub counts: Counts,
    ghost passed: { counts_answer_of (Ok counts) ≡ header_answer bytes.now },
}

impl HeadedFile<'_> {
    // The index width: `WrongIndexWidth` unless it is that of the count of vertices.
    pub fn check_width(self) -> Result<(), Refusal>
        ensures { refusal_of result ≡ check (wrong_width self.entry.bytes.now) 15 0 }
    {
        let width = bits::get_field(self.bytes, 4, 5);
        if width != bits::index_width(self.counts.vertices - 1) {
            return Err(Refusal::WrongIndexWidth);
        }
        Ok(())
    }
}

// The counts of a header: `WrongFileLength` for a file that is too short for one, `UnknownForm` and `CountOutOfRange`, in this order. The width,
// which stands behind the form number, is left out.
pub fn read_counts(s: &[u8]) -> Result<Counts, Refusal>
    ensures { counts_answer_of result ≡ header_answer s.now }
{
    if s.len() < HEADER_BYTES {
        return Err(Refusal::WrongFileLength);
    }
    let form = bits::get_field(s, 0, 4);
    if form != 1 {
        return Err(Refusal::UnknownForm);
    }
    let counts = Counts {
        vertices: bits::get_field(s, 9, 20),
        hexes: bits::get_field(s, 29, 18),
        quads: bits::get_field(s, 47, 18),
        segments: bits::get_field(s, 65, 18),
        points: bits::get_field(s, 83, 18),
    };
    if counting::out_of_range(Sizes::from(counts)) {
        return Err(Refusal::CountOutOfRange);
    }
    Ok(counts)
}
