// The split positions of all corners of child i of a cell, in eighths and summed, count corner u of the cell as often as row i says in column u.
// Each table is tested as a whole against the rules by one computed claim.
pub const HEX: [[u8; 8]; 8] = [
    [27, 9, 3, 9, 9, 3, 1, 3],
    [9, 27, 9, 3, 3, 9, 3, 1],
    [3, 9, 27, 9, 1, 3, 9, 3],
    [9, 3, 9, 27, 3, 1, 3, 9],
    [9, 3, 1, 3, 27, 9, 3, 9],
    [3, 9, 3, 1, 9, 27, 9, 3],
    [1, 3, 9, 3, 3, 9, 27, 9],
    [3, 1, 3, 9, 9, 3, 9, 27],
];

pub const QUAD: [[u8; 4]; 4] = [[18, 6, 2, 6], [6, 18, 6, 2], [2, 6, 18, 6], [6, 2, 6, 18]];

pub const SEGMENT: [[u8; 2]; 2] = [[12, 4], [4, 12]];

pub const POINT: [[u8; 1]; 1] = [[8]];
