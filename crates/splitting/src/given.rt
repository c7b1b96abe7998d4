// What stays while the cells of a kind are split.
ghost use Rattle.std.specs.Prelude.{◌≡◌, ◌+◌, ◌^◌, ◌≤◌};
ghost use Rattle.numbering.specs.Parts.{places_listed};
ghost use Rattle.splitting.specs.Kinds.{edges_of, faces_of, smallest_listed};

use crate::kinds::CellKind;

// V, E and F of the mesh: behind the old vertices come those of the edges, then those of the faces.
#[derive(Clone, Copy)]
pub struct Base {
    pub vertices: usize,
    pub edges: usize,
    pub faces: usize,
}

// The kind of the cells, with its tables as they are listed for it: the places of the corners of its edges and of its faces, and its smallest
// parts.
#[derive(Clone, Copy)]
pub struct Setting<'a> {
    pub base: Base,
    pub kind: CellKind,
    pub edges: &'a [u8],
    pub faces: &'a [u8],
    pub smallest: &'a [u8],
    ghost few: { base.vertices + base.edges + base.faces ≤ 2 ^ 32 },
    ghost edges_are: { edges.now ≡ places_listed (edges_of kind) },
    ghost faces_are: { faces.now ≡ places_listed (faces_of kind) },
    ghost smallest_are: { smallest.now ≡ smallest_listed kind },
}
