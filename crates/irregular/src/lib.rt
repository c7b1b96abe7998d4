// The irregular count: how many vertices of a mesh have a valence other than 2 to the power of the rank.
//
// Rests on `checks` for the refusals 1 to 8. Promises the whole answer for each mesh and leaves the lent numbers all zero. The answer
// never depends on how many there are. With `max(2 V, N)` of them the call is near-linear, for V vertices and the N numbers that make
// the checks near-linear (see `checks`); with k times fewer than 2 V the tables are walked k times.
#![tactic(auto)]

ghost use Rattle.std.specs.Prelude.{◌≡◌, ◌/◌, length};
ghost use Rattle.rules.specs.Answers.{count_answer_of};
ghost use Rattle.rules.specs.Lists.{keep, up_from};
ghost use Rattle.rules.specs.Mesh.{topology};
ghost use Rattle.rules.specs.Refusals.{mesh_checks};
ghost use Rattle.rules.specs.EntryPoints.{cleared, irregular_count, irregular_answer};
ghost use Rattle.tables.specs.Lent.{mesh_in};
ghost use Rattle.irregular.specs.Times.{irregular_in};

use crate::tallies::FewCorners;
use rules::Refusal;
use tables::MeshTables;

// With two lent numbers for each vertex of a window.
mod tallies;

// The count with an array of its own. It is not inlined: the checks have one too, and both would lie on the stack at once.
#[inline(never)]
fn count_alone(mesh: FewCorners) -> u64
    ensures { result ≡ length (keep (irregular_in (mesh_in mesh.entry.tables)) (up_from 0 (length (mesh_in mesh.entry.tables).vertices / 3))) }
{
    tallies::count(&mut [0u32; checks::OWN_NUMBERS], mesh)
}

// The count, of a mesh that passes the checks. Where little is lent, an array of its own serves instead.
fn count(mesh: MeshTables, words: &mut [u32]) -> u64
    requires { mesh_checks (mesh_in mesh) 0 ≡ 0 }
    ensures { result ≡ irregular_count (topology (mesh_in mesh.entry)) }
{
    let few = FewCorners { tables: mesh };
    let corners = mesh.hexes.len() + (mesh.quads.len() + (mesh.segments.len() + mesh.points.len()));
    if checks::is_little(words.len(), corners) {
        return count_alone(few);
    }
    tallies::count(words, few)
}

// The refusal, or the count; what is left in the lent numbers is not said.
fn check_and_count(mesh: MeshTables, words: &mut [u32]) -> Result<u64, Refusal>
    ensures { count_answer_of result ≡ irregular_answer (mesh_in mesh.entry) }
{
    checks::check_mesh(mesh, words)?;
    Ok(count(mesh, words))
}

// How many vertices are irregular; the lent numbers are cleared, whatever the answer is.
pub fn irregular_count(mesh: MeshTables, words: &mut [u32]) -> Result<u64, Refusal>
    ensures answer { count_answer_of result ≡ irregular_answer (mesh_in mesh.entry) }
    ensures words { words.new ≡ cleared words.old }
{
    let found = check_and_count(mesh, words);
    words.fill(0);
    found
}
