// Check 5, which looks at each cell by itself.
ghost use Rattle.std.specs.Prelude.{◌≡◌, false, [], ◌<◌, ◌/◌, eqb, length, get_or};
ghost use Rattle.rules.specs.Lists.{any, repeats, cut, has};
ghost use Rattle.rules.specs.Mesh.{topology};
ghost use Rattle.rules.specs.Refusals.{repeated_corner};
ghost use Rattle.tables.specs.Lent.{mesh_in};

use tables::MeshTables;

// A mesh in which no cell names a corner twice.
#[derive(Clone, Copy)]
pub struct PlainMesh<'a> {
    pub tables: MeshTables<'a>,
    ghost plain: { repeated_corner (topology (mesh_in tables)) ≡ false },
}

// Whether x is among the numbers.
pub fn has_number(x: u32, ys: &[u32]) -> bool
    ensures { result ≡ has x ys.now }
{
    ys.contains(&x)
}

// Whether a cell names a corner twice.
pub fn has_repeat(cell: &[u32]) -> bool
    ensures { result ≡ repeats eqb cell.now }
{
    (0..cell.len()).any(|i| has_number(cell[i], &cell[i + 1..]))
}

// Whether cell c of a table, of k corners each, names a corner twice.
#[tactic(auto, using(crate::proofs::Slices::place_within, crate::proofs::Slices::place_part))]
fn has_repeat_at(k: usize, table: &[u32], c: usize) -> bool
    requires { c < length table.now / k }
    ensures { result ≡ repeats eqb (get_or (cut k table.now) c []) }
{
    let at = k * c;
    has_repeat(&table[at..at + k])
}

// Whether a cell of a table, of k corners each, names a corner twice.
#[inline(always)]
pub fn any_repeat(k: usize, table: &[u32]) -> bool
    requires { 0 < k }
    ensures { result ≡ any (repeats eqb) (cut k table.now) }
{
    (0..table.len() / k).any(|c| has_repeat_at(k, table, c))
}

// The corners of cell i of a table, of C corners each.
#[tactic(auto, using(crate::proofs::Slices::entry_within, crate::proofs::Slices::entry_part))]
pub fn read<const C: usize>(table: &[u32], i: usize) -> [u32; C]
    requires { i < length (cut C table.now) }
    ensures { result ≡ get_or (cut C table.now) i [] }
{
    let mut corners = [0u32; C];
    let at = C * i;
    corners.copy_from_slice(&table[at..at + C]);
    corners
}

// 5, repeated corner (rule 7.5).
#[tactic(auto, using(crate::proofs::ByKind::repeat_tables))]
pub fn has_repeated_corner(mesh: MeshTables) -> bool
    ensures { result ≡ repeated_corner (topology (mesh_in mesh.entry)) }
{
    any_repeat(8, mesh.hexes)
        || any_repeat(4, mesh.quads)
        || any_repeat(2, mesh.segments)
        || any_repeat(1, mesh.points)
}
