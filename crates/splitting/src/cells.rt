// A cell's fine vertices, numbered as its edges and faces are met, and its children. Edges and faces have a table each, in words of their own.
ghost use Rattle.std.specs.Prelude.{◌≡◌, ◌+◌, ◌*◌, ◌/◌, ◌^◌, ◌≤◌, ◌<◌, length};
ghost use Rattle.rules.specs.Lists.{meet_all};
ghost use Rattle.numbering.specs.Table.{words_for, keys, Table};
ghost use Rattle.numbering.specs.Parts.{part_keys, Within, listed_keys, Numbered};
ghost use Rattle.splitting.specs.Kinds.{corner_count, edges_of, faces_of};
ghost use Rattle.splitting.specs.Cells.{cells_in, edges_met, faces_met};
ghost use Rattle.splitting.specs.Ready.{table_words};
ghost use Rattle.splitting.specs.Words.{SameTables, NoneMet, Room, BothMet, CellNumbered, CellSplit, TableSplit};

// Callers of the tables below find it beside them.
pub use crate::given::Base;
use crate::given::Setting;
use crate::kinds::CellKind;
use numbering::{parts, table};

// How many edges and faces have been met.
#[derive(Clone, Copy)]
pub struct Known {
    pub edges: usize,
    pub faces: usize,
}

// The tables of the edges and of the faces that have been met.
#[derive(Drop)]
pub struct PartTables<'a> {
    pub edge_words: &'a mut [u32],
    pub face_words: &'a mut [u32],
    pub known: Known,
}

// Meets the parts of a cell, of C corners each, in a table that has room for them all. The parameters are those of `meet_parts_of`: the
// words, the room and the count stand side by side, as in numbering.
fn number_parts<const C: usize>(
    w: &mut [u32],
    room: usize,
    n: usize,
    places: &[u8],
    cell: &[u32],
    base: usize,
    numbers: &mut [u32],
) -> usize
    requires corners { (0 < C) × (C ≤ 8) }
    requires table { Table C w.old room n }
    requires keys_fit { length (meet_all (keys C w.old room n) (listed_keys C places.now cell.now)) ≤ room }
    requires within { Within (length cell.now) places.now }
    requires room_bound { base + room ≤ 2 ^ 32 }
    requires parts_in_bounds { length places.now / C ≤ length numbers.old }
    ensures { Numbered C w.old w.new room n (listed_keys C places.now cell.now) base numbers.old numbers.new result }
{
    parts::meet_parts_of::<C>(w, room, n, places, cell, base, numbers).unwrap_or(n)
}

// `room`, `own_bound` and `children_in_bounds` are asked for on each level, each time of other cells: of one, of those of a table.
impl<'a> PartTables<'a> {
    // Two tables of no key in these words, with room for the edges and for the faces of the mesh. That the words end as what both lists leave is not
    // said: such a clause is proved only of a function that returns the two slices themselves, and not a struct of them.
    pub fn new(words: &'a mut [u32], base: Base) -> PartTables<'a>
        requires words_fit { table_words base.edges base.faces ≤ length words.old }
        requires few { (base.edges + 1 < 2 ^ 32) × (base.faces + 1 < 2 ^ 32) }
        ensures none_met { NoneMet base result }
        ensures edge_len { length result.edge_words.now ≡ words_for 2 base.edges }
        ensures face_len { length result.face_words.now + words_for 2 base.edges ≡ length words.old }
    {
        let (edge_words, face_words) = words.split_at_mut(table::size(base.edges, 2));
        table::prepare(edge_words, base.edges);
        table::prepare(face_words, base.faces);
        PartTables {
            edge_words,
            face_words,
            known: Known { edges: 0, faces: 0 },
        }
    }

    // Meets the edges and faces of a cell, and writes the numbers of its fine vertices to the front of `numbers`: its corners, its edges, its
    // faces, its own.
    #[tactic(auto, using(crate::proofs::KindParts::few_fine, crate::proofs::KindParts::edges_within, crate::proofs::KindParts::faces_within))]
    fn number_cell(&mut self, given: Setting, cell: &[u32], own: usize, numbers: &mut [u32; 27])
        requires room { Room given.base self.old (part_keys (edges_of given.kind) cell.now) (part_keys (faces_of given.kind) cell.now) }
        requires cell_len { length cell.now ≡ corner_count given.kind }
        requires own_bound { own < 2 ^ 32 }
        ensures same_tables { SameTables self.old self.new }
        ensures both_met { BothMet given.entry.base self.old self.new
            (part_keys (edges_of given.entry.kind) cell.now) (part_keys (faces_of given.entry.kind) cell.now) }
        ensures cell_numbered { CellNumbered given.entry.base self.old given.entry.kind cell.now own numbers.old numbers.new }
    {
        memory::copy(cell, numbers);
        let base = given.base;
        let edges_to = cell.len();
        let faces_to = edges_to + given.edges.len() / 2;
        let own_to = faces_to + given.faces.len() / 4;
        let edges = number_parts::<2>(
            self.edge_words,
            base.edges,
            self.known.edges,
            given.edges,
            cell,
            base.vertices,
            &mut numbers[edges_to..],
        );
        let faces = number_parts::<4>(
            self.face_words,
            base.faces,
            self.known.faces,
            given.faces,
            cell,
            base.vertices + base.edges,
            &mut numbers[faces_to..],
        );
        numbers[own_to] = own as u32;
        self.known = Known { edges, faces };
    }

    // Meets a cell, given by its corner numbers, and writes the corners of its children to the front of `out`. `numbers` is lent for the
    // numbers of its fine vertices.
    #[tactic(auto, using(crate::proofs::Tables::length_smallest))]
    fn split_cell(
        &mut self,
        given: Setting,
        cell: &[u32],
        own: usize,
        numbers: &mut [u32; 27],
        out: &mut [u32],
    )
        requires room { Room given.base self.old (part_keys (edges_of given.kind) cell.now) (part_keys (faces_of given.kind) cell.now) }
        requires cell_len { length cell.now ≡ corner_count given.kind }
        requires own_bound { own < 2 ^ 32 }
        requires children_in_bounds { corner_count given.kind * corner_count given.kind ≤ length out.old }
        ensures same_tables { SameTables self.old self.new }
        ensures both_met { BothMet given.entry.base self.old self.new
            (part_keys (edges_of given.entry.kind) cell.now) (part_keys (faces_of given.entry.kind) cell.now) }
        ensures cell_split { CellSplit given.entry.base self.old given.entry.kind cell.now own out.old out.new }
    {
        self.number_cell(given, cell, own, numbers);
        parts::load(given.smallest, numbers, &mut out[..given.smallest.len()]);
    }

    // Splits all cells of a flat table, with the tables of their kind. The array for a cell's numbers is made once and lent to each turn:
    // clearing it for each cell took a tenth of the time where there are only segments.
    fn split_each(&mut self, given: Setting, cells: &[u32], own: usize, out: &mut [u32])
        requires room { Room given.base self.old
            (edges_met given.kind (cells_in given.kind cells.now)) (faces_met given.kind (cells_in given.kind cells.now)) }
        requires own_bound { own + length cells.now / corner_count given.kind ≤ 2 ^ 32 }
        requires children_in_bounds { corner_count given.kind * (corner_count given.kind * (length cells.now / corner_count given.kind)) ≤ length out.old }
        ensures same_tables { SameTables self.old self.new }
        ensures both_met { BothMet given.entry.base self.old self.new
            (edges_met given.entry.kind (cells_in given.entry.kind cells.now)) (faces_met given.entry.kind (cells_in given.entry.kind cells.now)) }
        ensures table_split { TableSplit given.entry.base self.old given.entry.kind cells.now own out.old out.new }
    {
        let corners = given.kind.corner_count();
        let mut numbers = [0u32; 27];
        // By number: a proof knows nothing of what was written through `chunks_exact_mut` in a `zip`.
        for i in 0..cells.len() / corners {
            let at = corners * i;
            let cell = &cells[at..at + corners];
            self.split_cell(given, cell, own + i, &mut numbers, &mut out[corners * at..]);
        }
    }

    // Splits all cells of a flat table. Their own vertices are numbered from `own` on; only those of hexes are among the children's corners.
    #[tactic(auto, using(crate::proofs::KindParts::edges_short, crate::proofs::KindParts::faces_short))]
    pub fn split_cells(
        &mut self,
        base: Base,
        kind: CellKind,
        cells: &[u32],
        own: usize,
        out: &mut [u32],
    )
        requires room { Room base self.old (edges_met kind (cells_in kind cells.now)) (faces_met kind (cells_in kind cells.now)) }
        requires faces_bound { base.vertices + base.edges + base.faces ≤ 2 ^ 32 }
        requires own_bound { own + length cells.now / corner_count kind ≤ 2 ^ 32 }
        requires children_in_bounds { corner_count kind * (corner_count kind * (length cells.now / corner_count kind)) ≤ length out.old }
        ensures same_tables { SameTables self.old self.new }
        ensures both_met { BothMet base self.old self.new (edges_met kind (cells_in kind cells.now)) (faces_met kind (cells_in kind cells.now)) }
        ensures table_split { TableSplit base self.old kind cells.now own out.old out.new }
    {
        let corners = kind.corner_count();
        let edges = kind.edges();
        let faces = kind.faces();
        let edge_places = edges.listed();
        let face_places = faces.listed();
        let smallest = kind.smallest_parts();
        let edges_end = 2 * edges.count();
        let faces_end = 4 * faces.count();
        let given = Setting {
            base,
            kind,
            edges: &edge_places[..edges_end],
            faces: &face_places[..faces_end],
            smallest: &smallest[..corners * corners],
        };
        self.split_each(given, cells, own, out);
    }
}
