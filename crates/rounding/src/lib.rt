// The mathematics of rounds: the written coordinate against the exact one over any count of rounds, for rounds of weighted means. Rests on
// the definitions of `rules` alone, and speaks of no mesh. Laws only, no code.
#![tactic(auto)]
