// The tables of a file that passed its checks, stored at the fronts of lent tables.
ghost use Rattle.std.specs.Prelude.{◌≡◌};
ghost use Rattle.rules.specs.Counts.{counts_of};
ghost use Rattle.rules.specs.EntryPoints.{result_tables};
ghost use Rattle.rules.specs.StoredForm.{stored_mesh, reading_refusal};
ghost use Rattle.tables.specs.Lent.{mesh_at, SameSlices};

use crate::header::{HEADER_BITS, HeadedFile};
use crate::layout::layout_of;
use tables::LentTables;

// Stores the five tables.
pub fn store_tables(file: HeadedFile, lent: &mut LentTables)
    requires { reading_refusal file.bytes.now (counts_of (mesh_at lent.old)) ≡ 0 }
    ensures same_slices { SameSlices lent.old lent.new }
    ensures after { mesh_at lent.new ≡ result_tables 0 (mesh_at lent.old) (stored_mesh file.entry.bytes.now) }
{
    let s = file.bytes;
    let c = file.counts;
    let at = layout_of(c);
    let w = at.width;
    bits::get_table(s, HEADER_BITS, 30, lent.vertices, 3 * c.vertices as usize);
    bits::get_table(s, at.hexes, w, lent.hexes, 8 * c.hexes as usize);
    bits::get_table(s, at.quads, w, lent.quads, 4 * c.quads as usize);
    bits::get_table(s, at.segments, w, lent.segments, 2 * c.segments as usize);
    bits::get_table(s, at.points, w, lent.points, c.points as usize);
}
