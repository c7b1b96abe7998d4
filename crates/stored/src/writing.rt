// A mesh as fields, put into a buffer.
ghost use Rattle.std.specs.Prelude.{◌≡◌, ◌^◌, ◌≤◌, ◌<◌, length};
ghost use Rattle.rules.specs.Lists.{overwritten};
ghost use Rattle.rules.specs.Counts.{counts_of};
ghost use Rattle.rules.specs.Refusals.{table_checks};
ghost use Rattle.rules.specs.StoredForm.{form_number, index_width, header_fields, stored_form};
ghost use Rattle.bits.specs.Writing.{put_all};
ghost use Rattle.tables.specs.Lent.{mesh_in};

use crate::header::HEADER_BITS;
use rules::Counts;
use tables::MeshTables;

// Puts the header. Answers the bit behind it.
fn put_header(d: &mut [u8], width: u32, c: Counts) -> usize
    requires header_fits { (13 ≤ length d.old) × (width < 2 ^ 5) × (c.vertices < 2 ^ 20) }
    requires counts_fit { (c.hexes < 2 ^ 18) × (c.quads < 2 ^ 18) × (c.segments < 2 ^ 18) × (c.points < 2 ^ 18) }
    ensures { (result ≡ HEADER_BITS) × (d.new ≡ put_all d.old 0 (header_fields (record { form = form_number; width = width; counts = c }))) }
{
    let at = bits::put_field(d, 0, 4, 1);
    let at = bits::put_field(d, at, 5, width);
    let at = bits::put_field(d, at, 20, c.vertices);
    let at = bits::put_field(d, at, 18, c.hexes);
    let at = bits::put_field(d, at, 18, c.quads);
    let at = bits::put_field(d, at, 18, c.segments);
    bits::put_field(d, at, 18, c.points)
}

// Puts a mesh that passed its checks at the front of a buffer that has room.
pub fn put_mesh(d: &mut [u8], c: Counts, width: u32, mesh: MeshTables)
    requires { let m = mesh_in mesh in (table_checks m 0 ≡ 0) × (c ≡ counts_of m) × (width ≡ index_width c) × (length (stored_form m) ≤ length d.old) }
    ensures { d.new ≡ overwritten d.old (stored_form (mesh_in mesh.entry)) }
{
    let at = put_header(d, width, c);
    let at = bits::put_table(d, at, 30, mesh.vertices);
    let at = bits::put_table(d, at, width, mesh.hexes);
    let at = bits::put_table(d, at, width, mesh.quads);
    let at = bits::put_table(d, at, width, mesh.segments);
    bits::put_table(d, at, width, mesh.points);
}
