// What holds of meshes that pass checks 1 to 8, round after round. Laws only, no code.
// specs/ has the statements: what a sound topology is (checks 4 to 8 as statements), an accepted mesh, sizes and ranges compared, where the
// numbers of the fine vertices start, and the one number a face that decides check 7. proofs/ has the laws.
// Rests on the definitions of `rules` and the laws of `lists`.
// Promises that the checks and the statements agree, that a split of a sound topology is sound and has the sizes of rule 5.2,
// so that the finished counts are those foretold and a finished mesh passes checks 1, 2 and 4 to 8 again.
// The idea: a part of the fine mesh is all that lies between two parts P and R of one cell, P in R, as many dimensions apart as the fine part
// has. So edges, faces and hexes are the cases 1, 2, 3 of one law, and counting the P below an R gives the coefficients 2 4 6, 4 12, 8.
#![tactic(auto)]
