// Where the tables of a file begin.
ghost use Rattle.std.specs.Prelude.{◌≡◌, false};
ghost use Rattle.rules.specs.Counts.{out_of_range};
ghost use Rattle.stored.specs.Form.{Laid};

use crate::header::HEADER_BITS;
use rules::Counts;

// The index width, the bits at which the corners of each kind begin, how many corners there are, the bit behind the last, and the bytes that
// hold all.
#[derive(Clone, Copy)]
pub struct Layout {
    pub width: u32,
    pub hexes: usize,
    pub quads: usize,
    pub segments: usize,
    pub points: usize,
    pub corners: u32,
    pub end: usize,
    pub bytes: usize,
}

#[tactic(auto, using(crate::proofs::Bounds::computed, soundness::proofs::Rounds::in_range_lem))]
pub fn layout_of(c: Counts) -> Layout
    requires { out_of_range c ≡ false }
    ensures { Laid c result }
{
    let width = bits::index_width(c.vertices - 1);
    let w = width as usize;
    let hexes = HEADER_BITS + 30 * (3 * (c.vertices as usize));
    let quads = hexes + w * (8 * (c.hexes as usize));
    let segments = quads + w * (4 * (c.quads as usize));
    let points = segments + w * (2 * (c.segments as usize));
    let end = points + w * (c.points as usize);
    let corners = 8 * c.hexes + (4 * c.quads + (2 * c.segments + c.points));
    let bytes = (end + 7) / 8;
    Layout {
        width,
        hexes,
        quads,
        segments,
        points,
        corners,
        end,
        bytes,
    }
}
