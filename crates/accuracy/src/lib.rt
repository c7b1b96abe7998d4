// The third property of a mesh: the written coordinates against the exact ones, over the whole count of rounds. Carries the laws of `rounding`
// to the means of sound meshes (`soundness`): which vertices they draw on, with what weights, over what divisor; and that no round leaves the range.
// Laws only, no code.
#![tactic(auto)]
