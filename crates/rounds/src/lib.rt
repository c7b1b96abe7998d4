// The rounds of a mesh that passed the checks, in lent tables: the mesh is copied to the output tables and refined there, round by round.
// Rests on `splitting` and `averaging` for a round, on `counting` for the sizes of the next, on `tables` for copies.
// Promises of `make_rounds`: the output tables begin with the mesh after the rounds. What is left in the working memory is not said.
#![tactic(auto)]

ghost use Rattle.std.specs.Prelude.{◌≡◌};
ghost use Rattle.rules.specs.Averaging.{refined};
ghost use Rattle.rules.specs.EntryPoints.{result_tables};
ghost use Rattle.tables.specs.Lent.{mesh_in, mesh_at, SameSlices};
ghost use Rattle.rounds.specs.Working.{SameNumbers};
ghost use Rattle.rounds.specs.Ready.{ReadyFor};

use crate::turn::turns;
use rules::Sizes;
use tables::{LentTables, MeshTables};
pub use working::WorkingNumbers;

// One round, and some rounds in place.
mod turn;
// The numbers that are lent for working.
pub mod working;

// A mesh that passed the checks: copied to the output tables, and refined there.
pub fn make_rounds(
    mesh: MeshTables,
    rounds: u32,
    start: Sizes,
    output: &mut LentTables,
    working: &mut LentTables,
    numbers: &mut WorkingNumbers,
)
    requires { ReadyFor rounds (mesh_in mesh) start (mesh_at output.old) (mesh_at working.old) numbers.old }
    ensures same_output { SameSlices output.old output.new }
    ensures same_working { SameSlices working.old working.new }
    ensures same_numbers { SameNumbers numbers.old numbers.new }
    ensures refined { mesh_at output.new ≡ result_tables 0 (mesh_at output.old) (refined rounds (mesh_in mesh.entry)) }
{
    output.copy_from(mesh);
    turns(rounds, start, output, working, numbers);
}
