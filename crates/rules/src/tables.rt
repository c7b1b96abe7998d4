// The constant tables: edges, faces (rules 1.7 to 1.9), and the smallest part for two corners (rules 2.7, 2.8). Each is the rules' table, by one
// computed claim (proofs/Constants.antt). Their entries are bytes: a table is copied where it is read, and bytes make that a few stores.
ghost use Rattle.std.specs.Prelude.{◌≡◌, ◌<◌};
ghost use Rattle.rules.specs.Mesh.{place_of};

// The corner places of the edges of a hex.
pub const HEX_EDGES: [[u8; 2]; 12] = [
    [0, 1],
    [1, 2],
    [2, 3],
    [3, 0],
    [4, 5],
    [5, 6],
    [6, 7],
    [7, 4],
    [0, 4],
    [1, 5],
    [2, 6],
    [3, 7],
];

// The corner places of the faces of a hex.
pub const HEX_FACES: [[u8; 4]; 6] = [
    [0, 1, 2, 3],
    [4, 5, 6, 7],
    [0, 1, 5, 4],
    [1, 2, 6, 5],
    [2, 3, 7, 6],
    [3, 0, 4, 7],
];

// The corner places of the edges of a quad.
pub const QUAD_EDGES: [[u8; 2]; 4] = [[0, 1], [1, 2], [2, 3], [3, 0]];

// For corners i and j of a hex, the number of the smallest part that holds both among its 27 parts: corners 0 to 7, edges 8 to 19,
// faces 20 to 25, the hex itself 26.
pub const HEX_SMALLEST: [[u8; 8]; 8] = [
    [0, 8, 20, 11, 16, 22, 26, 25],
    [8, 1, 9, 20, 22, 17, 23, 26],
    [20, 9, 2, 10, 26, 23, 18, 24],
    [11, 20, 10, 3, 25, 26, 24, 19],
    [16, 22, 26, 25, 4, 12, 21, 15],
    [22, 17, 23, 26, 12, 5, 13, 21],
    [26, 23, 18, 24, 21, 13, 6, 14],
    [25, 26, 24, 19, 15, 21, 14, 7],
];

// The same for a quad's 9 parts: corners 0 to 3, edges 4 to 7, the quad itself 8.
pub const QUAD_SMALLEST: [[u8; 4]; 4] = [[0, 4, 8, 7], [4, 1, 5, 8], [8, 5, 2, 6], [7, 8, 6, 3]];

// The same for a segment's 3 parts: its ends and itself.
pub const SEGMENT_SMALLEST: [[u8; 2]; 2] = [[0, 2], [2, 1]];

// What stands in a row and a column of a table.
pub fn entry<const ROWS: usize, const COLUMNS: usize>(
    table: &[[u8; COLUMNS]; ROWS],
    row: usize,
    column: usize,
) -> usize
    requires row_in_bounds { row < ROWS }
    requires column_in_bounds { column < COLUMNS }
    ensures { result ≡ place_of table.now row column }
{
    usize::from(table[row][column])
}
