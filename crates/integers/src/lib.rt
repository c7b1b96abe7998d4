// Whole numbers: linear arithmetic over ℤ, the laws of division rounded down, and the range of a coordinate. Laws only, no code.
#![tactic(auto)]
