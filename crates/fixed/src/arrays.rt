// Tables of the fixed sizes, 1,000 vertices and 256 cells of each kind, as one value: a caller keeps it where there is no heap.
ghost use Rattle.std.specs.Prelude.{◌≡◌};
ghost use Rattle.rules.specs.Counts.{counts_of};
ghost use Rattle.rules.specs.Viewer.{fixed_counts};
ghost use Rattle.tables.specs.Lent.{mesh_at};
ghost use Rattle.fixed.specs.Arrays.{cleared_arrays, mesh_of_arrays};

use tables::LentTables;

#[derive(Drop)]
pub struct Arrays {
    vertices: [i32; 3000],
    hexes: [u32; 2048],
    quads: [u32; 1024],
    segments: [u32; 512],
    points: [u32; 256],
}

impl Arrays {
    pub fn new() -> Self
        ensures { result ≡ cleared_arrays }
    {
        Self {
            vertices: [0; 3000],
            hexes: [0; 2048],
            quads: [0; 1024],
            segments: [0; 512],
            points: [0; 256],
        }
    }

    // All of them, to be written. What is written through the loan is not said to stay in the arrays: each owner lends them once.
    #[tactic(auto, unfolding(rules::specs::Counts::counts_of))]
    pub fn lend(&mut self) -> LentTables<'_, '_, '_, '_, '_>
        ensures tables { mesh_at result ≡ mesh_of_arrays self.old }
        ensures sizes { counts_of (mesh_at result) ≡ fixed_counts }
    {
        let Self {
            vertices,
            hexes,
            quads,
            segments,
            points,
        } = self;
        LentTables {
            vertices,
            hexes,
            quads,
            segments,
            points,
        }
    }
}
