// The edges and faces of a mesh by number, in the order in which the rules meet them: read off the tables, with no memory.
ghost use Rattle.std.specs.Prelude.{◌≡◌, [], ◌<◌, length, get_or};
ghost use Rattle.numbering.specs.Parts.{part_corners};
ghost use Rattle.rules.specs.Mesh.{hex, quad, segment};
ghost use Rattle.checks.specs.Walk.{parts_in, size_of, Named, parts_met};

use numbering::parts::Parts;
use tables::MeshTables;

// What parts of cells are walked.
#[derive(Clone, Copy)]
pub enum Part {
    Edge,
    Face,
}

impl Part {
    // Those of a hex. The three lists of names are no table: where a kind is named, the compiler knows how many parts a cell has.
    fn of_hexes(self) -> Parts
        ensures { Named self hex result }
    {
        match self {
            Part::Edge => Parts::HexEdges,
            Part::Face => Parts::HexFaces,
        }
    }

    // Those of a quad, which is one face.
    fn of_quads(self) -> Parts
        ensures { Named self quad result }
    {
        match self {
            Part::Edge => Parts::QuadEdges,
            Part::Face => Parts::Quads,
        }
    }

    // Those of a segment, which is one edge.
    fn of_segments(self) -> Parts
        ensures { Named self segment result }
    {
        match self {
            Part::Edge => Parts::Segments,
            Part::Face => Parts::SegmentFaces,
        }
    }

    // How many the cells of a mesh have, each counted as often as it is met.
    #[tactic(auto, using(crate::proofs::WalkLaws::all_counted, crate::proofs::WalkLaws::few_parts))]
    pub fn count_all(self, mesh: MeshTables) -> usize
        ensures { result ≡ length (parts_met self mesh.entry) }
    {
        self.of_hexes().count_all(mesh.hexes)
            + self.of_quads().count_all(mesh.quads)
            + self.of_segments().count_all(mesh.segments)
    }

    // The corners of number i of them.
    #[tactic(auto, using(crate::proofs::WalkLaws::all_counted, crate::proofs::WalkLaws::met_hex, crate::proofs::WalkLaws::met_quad, crate::proofs::WalkLaws::met_segment, crate::proofs::WalkLaws::segment_below))]
    pub fn read<const C: usize>(self, mesh: MeshTables, i: usize) -> [u32; C]
        requires size { C ≡ size_of self }
        requires i_in_bounds { i < length (parts_met self mesh) }
        ensures { result ≡ get_or (parts_met self mesh.entry) i [] }
    {
        let hexes = self.of_hexes();
        let in_hexes = hexes.count_all(mesh.hexes);
        if i < in_hexes {
            return read_in(hexes, mesh.hexes, i);
        }
        let behind = i - in_hexes;
        let quads = self.of_quads();
        let in_quads = quads.count_all(mesh.quads);
        if behind < in_quads {
            return read_in(quads, mesh.quads, behind);
        }
        read_in(self.of_segments(), mesh.segments, behind - in_quads)
    }
}

// The corners of number i of these parts of the cells of a table.
#[tactic(auto, using(crate::proofs::WalkLaws::some, crate::proofs::WalkLaws::part_below, crate::proofs::WalkLaws::cell_within))]
fn read_in<const C: usize>(of: Parts, cells: &[u32], i: usize) -> [u32; C]
    requires size { C ≡ part_corners of }
    requires i_in_bounds { i < length (parts_in of cells.now) }
    ensures { result ≡ get_or (parts_in of cells.now) i [] }
{
    let n = of.count();
    let part = i % n;
    let k = of.cell_corners();
    let at = k * (i / n);
    let cell = &cells[at..at + k];
    let mut corners = [0u32; C];
    // No `from_fn`: under a const parameter its closure would need clauses of its own.
    for (j, corner) in corners.iter_mut().enumerate() {
        *corner = cell[of.place(part, j)];
    }
    corners
}
