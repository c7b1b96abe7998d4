// Keys numbered in the order first met: the edges, faces and corner sets of a mesh.
// Rests on `rules` (what is numbered), `lists` (laws of distinct keys) and `memory`.
// Promises: a lent slice that holds a table of distinct keys holds, once a key is met, the table of `meet` of them, and the answer is
// the key's place in it. A table with room for n keys of c numbers takes (c + 2) n + 1 words; a key that has no room is answered by `None`.
// Meeting a key takes a constant number of steps on average, whatever vertices the keys share: the hash is over the whole key.
#![tactic(auto)]

// A table of keys.
pub mod table;
// The key of some corners.
pub mod keys;
// The parts of cells.
pub mod parts;
// Counting distinct parts.
pub mod count;
