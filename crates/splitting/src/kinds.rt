// The kinds of cells that are split: how many corners, which parts, which smallest parts.
ghost use Rattle.std.specs.Prelude.{◌≡◌, ℕ, ◌/◌, ◌%◌, ◌<◌, length, get_or, take};
ghost use Rattle.rules.specs.Mesh.{smallest_table, place_of};
ghost use Rattle.splitting.specs.Kinds.{kind_of, corner_count, edges_of, faces_of, smallest_listed};

use numbering::parts::{Parts, at_front};
use rules::tables::{HEX_SMALLEST, QUAD_SMALLEST, SEGMENT_SMALLEST};

#[derive(Clone, Copy)]
pub enum CellKind {
    Hex,
    Quad,
    Segment,
}

impl CellKind {
    pub fn corner_count(self) -> usize
        ensures { result ≡ corner_count self }
    {
        match self {
            CellKind::Hex => 8,
            CellKind::Quad => 4,
            CellKind::Segment => 2,
        }
    }

    // The parts that are its edges, and below its faces: two lists of names, not one rule.
    pub fn edges(self) -> Parts
        ensures { result ≡ edges_of self }
    {
        match self {
            CellKind::Hex => Parts::HexEdges,
            CellKind::Quad => Parts::QuadEdges,
            CellKind::Segment => Parts::Segments,
        }
    }

    pub fn faces(self) -> Parts
        ensures { result ≡ faces_of self }
    {
        match self {
            CellKind::Hex => Parts::HexFaces,
            CellKind::Quad => Parts::Quads,
            CellKind::Segment => Parts::SegmentFaces,
        }
    }

    // The table of the smallest parts, row after row, and zeros behind it; the longest has 64. It is listed once for a whole table of cells. No
    // `ArrayVec`, as for `Parts::listed`: a table is copied whole.
    pub fn smallest_parts(self) -> [u8; 64]
        ensures front { take (length (smallest_listed self)) result ≡ smallest_listed self }
        ensures places { (i : ℕ) → i < length (smallest_listed self) →
            get_or result i 0 ≡ place_of (smallest_table (kind_of self)) (i / corner_count self) (i % corner_count self) }
    {
        match self {
            CellKind::Hex => at_front(HEX_SMALLEST.as_flattened()),
            CellKind::Quad => at_front(QUAD_SMALLEST.as_flattened()),
            CellKind::Segment => at_front(SEGMENT_SMALLEST.as_flattened()),
        }
    }
}
