// The rank and the valence of one vertex, by a walk through the tables.
ghost use Rattle.std.specs.Prelude.{◌≡◌, ◌<◌, ◌≤◌, cond, length};
ghost use Rattle.rules.specs.Lists.{cut, has};
ghost use Rattle.rules.specs.Mesh.{topology};
ghost use Rattle.rules.specs.Averaging.{holding, rank, valence};
ghost use Rattle.tables.specs.Lent.{mesh_in};

use checks::cells::has_number;
use tables::MeshTables;

#[derive(Clone, Copy)]
pub struct Ranked {
    pub rank: usize,
    pub valence: usize,
}

// How many cells of a table, of C corners each, hold vertex v.
fn count_holding<const C: usize>(v: u32, table: &[u32]) -> usize
    requires { (0 < C) × (C ≤ 8) }
    ensures { result ≡ length (holding v (cut C table.now)) }
{
    let (cells, _) = table.as_chunks::<C>();
    cells
        .iter()
        .map(
            |cell|
                ensures { result ≡ cond (has v cell.now) 1 0 }
            { usize::from(has_number(v, cell)) },
        )
        .sum()
}

// The table of the lowest dimension that has a cell with the vertex decides. Kind by kind, written out: a loop over kinds would need the four
// tables in an array, and a law that says where it stops.
pub fn rank_of(v: u32, mesh: MeshTables) -> Ranked
    ensures ranks { result.rank ≡ rank (topology (mesh_in mesh.entry)) v }
    ensures counts { result.valence ≡ valence (topology (mesh_in mesh.entry)) v }
{
    let points = count_holding::<1>(v, mesh.points);
    if points != 0 {
        return Ranked {
            rank: 0,
            valence: points,
        };
    }
    let segments = count_holding::<2>(v, mesh.segments);
    if segments != 0 {
        return Ranked {
            rank: 1,
            valence: segments,
        };
    }
    let quads = count_holding::<4>(v, mesh.quads);
    if quads != 0 {
        return Ranked {
            rank: 2,
            valence: quads,
        };
    }
    Ranked {
        rank: 3,
        valence: count_holding::<8>(v, mesh.hexes),
    }
}
