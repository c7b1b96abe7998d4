// The averaging of one round (section 3 of docs/SPECIFICATION.md). It rests on the rules, on sound meshes and on the laws of weighted means,
// and promises that the output's used part holds the coordinates after the round, and that nothing else of it changes.
// One pass over the coarse cells in rising dimension: points, segments, quads, hexes. Each child of a cell counts for its corners, with the sum
// of their split positions; so the first kind that names a fine vertex gives it its rank. Then one division a fine vertex and axis.
#![tactic(auto)]

ghost use Rattle.std.specs.Prelude.{◌≡◌, length};
ghost use Rattle.rules.specs.Lists.{overwritten};
ghost use Rattle.rules.specs.Mesh.{topology};
ghost use Rattle.rules.specs.Averaging.{means, averaged};
ghost use Rattle.tables.specs.Lent.{mesh_in};
ghost use Rattle.averaging.specs.Ready.{Ready};

mod coordinates;
mod entries;
mod means;
mod tallies;
mod weights;

use crate::entries::entries;
use crate::means::finish;
use crate::tallies::Tallies;
use crate::weights::{HEX, POINT, QUAD, SEGMENT};
use tables::MeshTables;

// `fine` has the fine cells of the mesh, and coordinates that are not read; `count` is how many fine vertices there are. Working numbers: two
// words and three longs for each fine vertex, whose contents at the start do not matter. The coordinates after the round go to `out`.
pub fn average(
    mesh: MeshTables,
    fine: MeshTables,
    count: usize,
    words: &mut [u32],
    longs: &mut [u64],
    out: &mut [i32],
)
    requires { Ready (mesh_in mesh) (mesh_in fine) count (length words.old) (length longs.old) (length out.old) }
    ensures lengths_kept { (length words.new ≡ length words.old) × (length longs.new ≡ length longs.old) }
    ensures output { let m = mesh_in mesh.entry in
        out.new ≡ overwritten out.old (averaged (means (topology m)) m.vertices) }
{
    let vertices: &[[i32; 3]] = entries(mesh.vertices);
    let (ranks, _) = words[..2 * count].as_chunks_mut::<2>();
    let (totals, _) = longs[..3 * count].as_chunks_mut::<3>();
    let mut tallies = Tallies { ranks, totals };
    tallies.reset();
    tallies.count_table(mesh.points, &POINT, 0, vertices, fine.points);
    tallies.count_table(mesh.segments, &SEGMENT, 1, vertices, fine.segments);
    tallies.count_table(mesh.quads, &QUAD, 2, vertices, fine.quads);
    tallies.count_table(mesh.hexes, &HEX, 3, vertices, fine.hexes);
    finish(&tallies, out);
}
