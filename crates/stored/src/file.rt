// The checks of a whole file, in reading's order up to `CornerOutOfRange`. Nothing is stored.
ghost use Rattle.std.specs.Prelude.{◌≡◌, ◌+◌, ◌*◌, ◌^◌, ◌≤◌, length, leb};
ghost use Rattle.rules.specs.Answers.{refusal_of, counts_answer_of};
ghost use Rattle.rules.specs.Bits.{table_at};
ghost use Rattle.rules.specs.EntryPoints.{counts_answer};
ghost use Rattle.rules.specs.Lists.{any};
ghost use Rattle.rules.specs.StoredForm.{header_of};
ghost use Rattle.stored.specs.Reading.{whole_header_checks, body_checks, file_checks};

use crate::header::{HeadedFile, read_counts};
use crate::layout::{Layout, layout_of};
use rules::{Counts, Refusal};

// Whether some corner is not below n: all tables of corners are one row of fields. A loop: with `(0..at.corners).any(..)`, which proves, reading
// takes 8.5 % more instructions.
fn reaches(s: &[u8], at: Layout, n: u32) -> bool
    requires { (at.width ≤ 32) × (at.hexes + at.width * at.corners ≤ 8 * length s.now) × (at.hexes + at.width * at.corners ≤ 2 ^ 60) }
    ensures { result ≡ any (leb n) (table_at s.now at.hexes at.width at.corners) }
{
    let mut p = at.hexes;
    for i in 0..at.corners {
        let corner = bits::get_field(s, p, at.width);
        if n <= corner {
            return true;
        }
        p += at.width as usize;
    }
    false
}

// What stands behind the header: `WrongFileLength` for the whole length, `NonzeroPadding` for a filling bit, `CornerOutOfRange` for a corner.
fn check_body(file: HeadedFile) -> Result<(), Refusal>
    requires { whole_header_checks file.bytes.now 0 ≡ 0 }
    ensures { refusal_of result ≡ body_checks file.entry.bytes.now 0 }
{
    let s = file.bytes;
    let at = layout_of(file.counts);
    if s.len() != at.bytes {
        return Err(Refusal::WrongFileLength);
    }
    let filling = bits::get_field(s, at.end, (8 * at.bytes - at.end) as u32);
    if filling != 0 {
        return Err(Refusal::NonzeroPadding);
    }
    if reaches(s, at, file.counts.vertices) {
        return Err(Refusal::CornerOutOfRange);
    }
    Ok(())
}

// The counts of a file that passes, or the first refusal.
pub fn check_file(s: &[u8]) -> Result<Counts, Refusal>
    ensures { counts_answer_of result ≡ counts_answer (file_checks s.now 0) (header_of s.now).counts }
{
    let counts = read_counts(s)?;
    let file = HeadedFile { bytes: s, counts };
    file.check_width()?;
    check_body(file)?;
    Ok(counts)
}
