// The parts of cells, met in the order of rule 2.2 of docs/SPECIFICATION.md: cell after cell, part after part.
ghost use Rattle.std.specs.Prelude.{◌≡◌, ◌+◌, ◌/◌, ◌^◌, ◌≤◌, ◌<◌, length, replicate, take};
ghost use Rattle.rules.specs.Lists.{concat_map, cut, overwritten};
ghost use Rattle.rules.specs.Mesh.{place_of};
ghost use Rattle.rules.specs.Split.{corners_at, key_at};
ghost use Rattle.numbering.specs.Table.{Table};
ghost use Rattle.numbering.specs.Meeting.{Answered};
ghost use Rattle.numbering.specs.Parts.{places_of, part_corners, cell_corners, table_keys, places_listed, Within, listed_keys, Numbering, Tallied};

use crate::{keys, table};
use rules::tables::{HEX_EDGES, HEX_FACES, QUAD_EDGES, entry};

// An array with this list at its front, and zeros behind it.
pub fn at_front<const N: usize>(list: &[u8]) -> [u8; N]
    requires { length list.now ≤ N }
    ensures { result ≡ overwritten (replicate N 0) list.now }
{
    let mut array = [0u8; N];
    memory::copy(list, &mut array);
    array
}

// The parts of one dimension of one kind of cells. A cell by itself is one part; a segment has no face.
#[derive(Clone, Copy)]
pub enum Parts {
    HexEdges,
    HexFaces,
    Hexes,
    QuadEdges,
    Quads,
    Segments,
    SegmentFaces,
    Points,
}

impl Parts {
    // How many a cell has.
    #[tactic(auto, unfolding(rules::specs::Mesh::places, rules::specs::Mesh::by_dimension, rules::specs::Mesh::singles, rules::specs::Lists::up_from))]
    pub fn count(self) -> usize
        ensures { result ≡ length (places_of self) }
    {
        match self {
            Parts::HexEdges => 12,
            Parts::HexFaces => 6,
            Parts::QuadEdges => 4,
            Parts::SegmentFaces => 0,
            Parts::Hexes | Parts::Quads | Parts::Segments | Parts::Points => 1,
        }
    }

    // How many corners a cell with these parts has.
    pub fn cell_corners(self) -> usize
        ensures { result ≡ cell_corners self }
    {
        match self {
            Parts::HexEdges | Parts::HexFaces | Parts::Hexes => 8,
            Parts::QuadEdges | Parts::Quads => 4,
            Parts::Segments | Parts::SegmentFaces => 2,
            Parts::Points => 1,
        }
    }

    // How many corners each of them has.
    pub fn part_corners(self) -> usize
        ensures { result ≡ part_corners self }
    {
        match self {
            Parts::Points => 1,
            Parts::HexEdges | Parts::QuadEdges | Parts::Segments => 2,
            Parts::HexFaces | Parts::Quads | Parts::SegmentFaces => 4,
            Parts::Hexes => 8,
        }
    }

    // How many the cells of a flat table have, each counted as often as it is met.
    #[tactic(auto, using(crate::proofs::Places::length_table_keys))]
    pub fn count_all(self, cells: &[u32]) -> usize
        ensures { result ≡ length (table_keys self cells.now) }
    {
        self.count() * (cells.len() / self.cell_corners())
    }

    // The place of a corner of a part in the cell.
    #[tactic(auto, unfolding(rules::specs::Mesh::places, rules::specs::Mesh::by_dimension))]
    pub fn place(self, part: usize, corner: usize) -> usize
        requires part_in_bounds { part < length (places_of self) }
        requires corner_bound { corner < part_corners self }
        ensures { result ≡ place_of (places_of self) part corner }
    {
        match self {
            Parts::HexEdges => entry(&HEX_EDGES, part, corner),
            Parts::HexFaces => entry(&HEX_FACES, part, corner),
            Parts::QuadEdges => entry(&QUAD_EDGES, part, corner),
            Parts::Hexes | Parts::Quads | Parts::Segments | Parts::SegmentFaces | Parts::Points =>
                corner,
        }
    }

    // The places of the corners of a cell's parts, part after part, and zeros behind them; the most are 24. They are listed once for a whole
    // table of cells: what is done for each cell then reads them in a row. A cell by itself has its corners in order. No `ArrayVec`: a
    // table's rows are copied whole, and its calls that take a slice answer an `Err`, here a branch that none takes.
    pub fn listed(self) -> [u8; 24]
        ensures front { take (length (places_listed self)) result ≡ places_listed self }
        ensures whole { result ≡ overwritten (replicate 24 0) (places_listed self) }
    {
        match self {
            Parts::HexEdges => at_front(HEX_EDGES.as_flattened()),
            Parts::HexFaces => at_front(HEX_FACES.as_flattened()),
            Parts::QuadEdges => at_front(QUAD_EDGES.as_flattened()),
            Parts::Hexes => at_front(&[0, 1, 2, 3, 4, 5, 6, 7]),
            Parts::Quads => at_front(&[0, 1, 2, 3]),
            Parts::Segments => at_front(&[0, 1]),
            Parts::Points => at_front(&[0]),
            Parts::SegmentFaces => at_front(&[]),
        }
    }
}

// Reads the numbers that stand at these places. That each place is one of the cell's is asked five times from here on: the places are listed for
// a kind of cells, and the cell is another slice each turn, so a struct of both would be made for each cell.
pub fn load(places: &[u8], from: &[u32], to: &mut [u32])
    requires to_len { length to.old ≡ length places.now }
    requires within { Within (length from.now) places.now }
    ensures { to.new ≡ corners_at from.now places.now }
{
    // By number: a proof knows nothing of what was written through `iter_mut` in a `zip`.
    for (i, place) in places.iter().enumerate() {
        to[i] = from[usize::from(*place)];
    }
}

// How many parts have so many places, of so many corners each.
fn part_count(places: usize, corners: usize) -> usize
    ensures { result ≡ places / corners }
{
    places.checked_div(corners).unwrap_or(0)
}

// Meets the part of a cell whose corners stand at these places, in a table of n keys; `key` has room for the part's corners.
fn meet_part(
    w: &mut [u32],
    room: usize,
    n: usize,
    places: &[u8],
    cell: &[u32],
    key: &mut [u32],
) -> Option<table::MetKey>
    requires table { Table (length key.old) w.old room n }
    requires key_len { length key.old ≡ length places.now }
    requires within { Within (length cell.now) places.now }
    ensures { Answered (length key.old) w.old w.new room n (key_at cell.now places.now) result }
{
    load(places, cell, key);
    keys::sort(key);
    table::meet(w, room, n, key)
}

// Meets the parts of a cell in order, of as many corners each as `key` has room for, and writes the place of each, counted from `base`, to the
// front of `numbers`; the answer is the count of keys, if there is room for them all. The places of their corners are listed. This is for a
// caller that knows the count of corners only when it runs.
pub fn meet_parts(
    w: &mut [u32],
    room: usize,
    n: usize,
    places: &[u8],
    cell: &[u32],
    base: usize,
    key: &mut [u32],
    numbers: &mut [u32],
) -> Option<usize>
    requires table { Table (length key.old) w.old room n }
    requires within { Within (length cell.now) places.now }
    requires room_bound { base + room ≤ 2 ^ 32 }
    requires parts_in_bounds { length places.now / length key.old ≤ length numbers.old }
    ensures { Numbering (length key.old) w.old w.new room n
        (listed_keys (length key.old) places.now cell.now) base numbers.old numbers.new result }
{
    let c = key.len();
    let mut known = n;
    for part in 0..part_count(places.len(), c) {
        let at = c * part;
        let met = meet_part(w, room, known, &places[at..at + c], cell, key)?;
        numbers[part] = (base + met.number) as u32;
        known = met.known;
    }
    Some(known)
}

// The same for a part of C corners, with a key of its own. An array of C numbers is to have fewer than 2^63 bytes: this is asked here and twice
// below, since a table with no room for a key bounds no C, and a struct of that one fact is no plainer.
fn meet_part_of<const C: usize>(
    w: &mut [u32],
    room: usize,
    n: usize,
    places: &[u8],
    cell: &[u32],
) -> Option<table::MetKey>
    requires short { C < 2 ^ 61 }
    requires table { Table C w.old room n }
    requires places_len { length places.now ≡ C }
    requires within { Within (length cell.now) places.now }
    ensures { Answered C w.old w.new room n (key_at cell.now places.now) result }
{
    let mut key = [0u32; C];
    load(places, cell, &mut key);
    keys::sort(&mut key);
    table::meet(w, room, n, &key)
}

// The same as `meet_parts` for parts of C corners each, which is what refining calls: a constant leaves no loop over a key. Each has a body of
// its own: by a call of `meet_parts` that is inlined here, refining took 0.7 % more instructions on a grid of hexes, and by one of `meet_part`
// 0.8 % more: the bar is 0.5 %.
pub fn meet_parts_of<const C: usize>(
    w: &mut [u32],
    room: usize,
    n: usize,
    places: &[u8],
    cell: &[u32],
    base: usize,
    numbers: &mut [u32],
) -> Option<usize>
    requires short { C < 2 ^ 61 }
    requires table { Table C w.old room n }
    requires within { Within (length cell.now) places.now }
    requires room_bound { base + room ≤ 2 ^ 32 }
    requires parts_in_bounds { length places.now / C ≤ length numbers.old }
    ensures { Numbering C w.old w.new room n (listed_keys C places.now cell.now) base numbers.old numbers.new result }
{
    let mut known = n;
    // By their numbers: over `chunks_exact(C).enumerate()` splitting takes 3 % more instructions.
    for part in 0..part_count(places.len(), C) {
        let at = C * part;
        let met = meet_part_of::<C>(w, room, known, &places[at..at + C], cell)?;
        numbers[part] = (base + met.number) as u32;
        known = met.known;
    }
    Some(known)
}

// Meets the parts of all cells of a flat table of cells of `corners` corners, cell after cell. Their numbers are not asked for.
fn meet_cells<const C: usize>(
    w: &mut [u32],
    room: usize,
    n: usize,
    places: &[u8],
    cells: &[u32],
    corners: usize,
) -> Option<usize>
    requires short { C < 2 ^ 61 }
    requires table { Table C w.old room n }
    requires few_parts { length places.now / C ≤ 12 }
    requires within { Within corners places.now }
    requires corners_nonzero { 0 < corners }
    ensures { Tallied C w.old w.new room n (concat_map (listed_keys C places.now) (cut corners cells.now)) result }
{
    let mut numbers = [0u32; 12];
    let mut known = n;
    for cell in cells.chunks_exact(corners) {
        known = meet_parts_of::<C>(w, room, known, places, cell, 0, &mut numbers)?;
    }
    Some(known)
}

// Meets these parts of all cells of a flat table, of C corners each: a constant, so that no loop over a key is left.
#[tactic(auto, using(crate::proofs::Places::list_size, crate::proofs::Places::few_listed))]
pub fn meet_table_of<const C: usize>(
    w: &mut [u32],
    room: usize,
    n: usize,
    parts: Parts,
    cells: &[u32],
) -> Option<usize>
    requires table { Table C w.old room n }
    requires corners { C ≡ part_corners parts }
    ensures { Tallied C w.old w.new room n (table_keys parts cells.now) result }
{
    let places = parts.listed();
    let end = C * parts.count();
    meet_cells::<C>(w, room, n, &places[..end], cells, parts.cell_corners())
}

// The same for a caller that knows the parts only when it runs: how many corners a part has is asked once for the table.
pub fn meet_table(
    w: &mut [u32],
    room: usize,
    n: usize,
    parts: Parts,
    cells: &[u32],
) -> Option<usize>
    requires { Table (part_corners parts) w.old room n }
    ensures { Tallied (part_corners parts) w.old w.new room n (table_keys parts cells.now) result }
{
    match parts.part_corners() {
        1 => meet_table_of::<1>(w, room, n, parts, cells),
        2 => meet_table_of::<2>(w, room, n, parts, cells),
        4 => meet_table_of::<4>(w, room, n, parts, cells),
        _ => meet_table_of::<8>(w, room, n, parts, cells),
    }
}
