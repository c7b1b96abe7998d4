// The stored form of a mesh: reading (`read`), writing (`write`), and the counts in a header (`header_counts`), the three entry points.
//
// Reading goes over the file twice. `file::check_file` makes the checks in the order of rule 9.4 and answers the counts. Only then, and if the
// lent tables have room, the tables are stored (`reading`). Writing makes the checks up to `CornerOutOfRange` (`checks`), asks for room, and
// puts the header and the five tables (`writing`). `layout` says where each table begins; a table more is a line there, one in `store_tables`
// and one in `put_mesh`.
//
// Both promise the answer and all lent memory by the rules' equations, and that the one undoes the other: what stands in lent memory on
// return is accepted by the other, and gives back what was there at entry.
#![tactic(auto)]

ghost use Rattle.std.specs.Prelude.{◌≡◌, length, take, IfOk};
ghost use Rattle.rules.specs.Answers.{counts_answer_of, count_answer_of};
ghost use Rattle.rules.specs.Counts.{counts_of};
ghost use Rattle.rules.specs.EntryPoints.{front};
ghost use Rattle.rules.specs.StoredForm.{stored_form, stored_mesh, header_answer, reading_refusal, reading_answer, reading_output, writing_refusal, writing_answer, writing_output};
ghost use Rattle.tables.specs.Lent.{mesh_in, mesh_at, SameSlices};

use crate::file::check_file;
use crate::header::{HeadedFile, read_counts};
use crate::layout::layout_of;
use crate::reading::store_tables;
use crate::writing::put_mesh;
use checks::table_checks::check_tables;
use rules::{Counts, Refusal, Sizes};
use tables::{LentTables, MeshTables};

mod file;
mod header;
mod layout;
mod reading;
mod writing;

// The counts in a header, so that tables can be lent for reading. Neither the index width nor what stands behind the header is looked at.
pub fn header_counts(bytes: &[u8]) -> Result<Counts, Refusal>
    ensures { counts_answer_of result ≡ header_answer bytes.now }
{
    read_counts(bytes)
}

// Reads a stored mesh into the fronts of the lent tables, of which a refusal changes none. The mesh there, written into as many bytes, gives the
// same bytes.
pub fn read(bytes: &[u8], tables: &mut LentTables) -> Result<Counts, Refusal>
    ensures same_slices { SameSlices tables.old tables.new }
    ensures answer { counts_answer_of result ≡ reading_answer bytes.now (mesh_at tables.old) }
    ensures output { mesh_at tables.new ≡ reading_output bytes.now (mesh_at tables.old) }
    ensures inverse { IfOk result (λ counts. let m = front counts (mesh_at tables.new) in (writing_refusal m (length bytes.now) ≡ 0) × (stored_form m ≡ bytes.now)) }
{
    let counts = check_file(bytes)?;
    if counting::fewer(tables.as_mesh().places(), Sizes::from(counts)) {
        return Err(Refusal::ShortBuffer);
    }
    store_tables(HeadedFile { bytes, counts }, tables);
    Ok(counts)
}

// Writes a mesh into the front of the lent buffer, which a refusal leaves as it was, and answers the count of bytes. The bytes there, read into
// tables as long, give the same mesh.
pub fn write(mesh: MeshTables, buffer: &mut [u8]) -> Result<u64, Refusal>
    ensures answer { count_answer_of result ≡ writing_answer (mesh_in mesh.entry) buffer.old }
    ensures output { buffer.new ≡ writing_output (mesh_in mesh.entry) buffer.old }
    ensures inverse { IfOk result (λ count. let s = take count buffer.new in (reading_refusal s (counts_of (mesh_in mesh.entry)) ≡ 0) × (stored_mesh s ≡ mesh_in mesh.entry)) }
{
    check_tables(mesh)?;
    let counts = counting::counts_in(mesh.places());
    let at = layout_of(counts);
    if buffer.len() < at.bytes {
        return Err(Refusal::ShortBuffer);
    }
    put_mesh(buffer, counts, at.width, mesh);
    Ok(at.bytes as u64)
}
