// The five tables of a mesh as one value: lent for reading, or for writing.
// Rests on `rules` for what a mesh is and on `memory` for copies. Promises: the tables on return, by one equation of meshes.
#![tactic(auto)]

ghost use Rattle.std.specs.Prelude.{◌≡◌};
ghost use Rattle.rules.specs.Counts.{counts_of, counts_in};
ghost use Rattle.rules.specs.EntryPoints.{front, result_tables, cleared_tables};
ghost use Rattle.tables.specs.Lent.{mesh_in, mesh_at, SameSlices, Fits, Room};

use rules::{Counts, Sizes};

// The five tables of a mesh, as they lie in memory.
#[derive(Clone, Copy)]
pub struct MeshTables<'a> {
    pub vertices: &'a [i32],
    pub hexes: &'a [u32],
    pub quads: &'a [u32],
    pub segments: &'a [u32],
    pub points: &'a [u32],
}

// Five tables that are lent for writing. Each has a lifetime of its own, so that one can be written while another is read.
#[derive(Drop)]
pub struct LentTables<'v, 'h, 'q, 's, 'p> {
    pub vertices: &'v mut [i32],
    pub hexes: &'h mut [u32],
    pub quads: &'q mut [u32],
    pub segments: &'s mut [u32],
    pub points: &'p mut [u32],
}

impl<'a> MeshTables<'a> {
    // How many entries each table has; they may be more than a mesh may have.
    #[tactic(auto, unfolding(rules::specs::Counts::counts_of, rules::specs::Counts::counts_in))]
    pub fn places(self) -> Sizes
        ensures { counts_in result ≡ counts_of (mesh_in self.entry) }
    {
        Sizes {
            vertices: (self.vertices.len() / 3) as u64,
            edges: 0,
            faces: 0,
            hexes: (self.hexes.len() / 8) as u64,
            quads: (self.quads.len() / 4) as u64,
            segments: (self.segments.len() / 2) as u64,
            points: self.points.len() as u64,
        }
    }

    // The mesh of these counts at the front of the tables.
    #[tactic(auto, unfolding(rules::specs::EntryPoints::front_of))]
    pub fn front(self, counts: Counts) -> MeshTables<'a>
        requires { Room counts (mesh_in self) }
        ensures { mesh_in result ≡ front counts (mesh_in self.entry) }
    {
        MeshTables {
            vertices: &self.vertices[..3 * counts.vertices as usize],
            hexes: &self.hexes[..8 * counts.hexes as usize],
            quads: &self.quads[..4 * counts.quads as usize],
            segments: &self.segments[..2 * counts.segments as usize],
            points: &self.points[..counts.points as usize],
        }
    }
}

impl LentTables<'_, '_, '_, '_, '_> {
    // The same tables, only to be read.
    pub fn as_mesh(&self) -> MeshTables<'_>
        ensures { mesh_in result ≡ mesh_at self.now }
    {
        MeshTables {
            vertices: self.vertices,
            hexes: self.hexes,
            quads: self.quads,
            segments: self.segments,
            points: self.points,
        }
    }

    // Copies a mesh to the front of the tables.
    #[tactic(auto, unfolding(rules::specs::EntryPoints::result_tables))]
    pub fn copy_from(&mut self, mesh: MeshTables)
        requires { Fits (mesh_in mesh) (mesh_at self.old) }
        ensures same_slices { SameSlices self.old self.new }
        ensures after { mesh_at self.new ≡ result_tables 0 (mesh_at self.old) (mesh_in mesh.entry) }
    {
        memory::copy(mesh.vertices, self.vertices);
        memory::copy(mesh.hexes, self.hexes);
        memory::copy(mesh.quads, self.quads);
        memory::copy(mesh.segments, self.segments);
        memory::copy(mesh.points, self.points);
    }

    // Sets every number to 0.
    #[tactic(auto, unfolding(rules::specs::EntryPoints::cleared_tables))]
    pub fn clear(&mut self)
        ensures same_slices { SameSlices self.old self.new }
        ensures after { mesh_at self.new ≡ cleared_tables (mesh_at self.old) }
    {
        self.vertices.fill(0);
        self.hexes.fill(0);
        self.quads.fill(0);
        self.segments.fill(0);
        self.points.fill(0);
    }
}
