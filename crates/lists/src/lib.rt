// Laws of lists: what holds of the list functions of `rules`, and of membership. Laws only, no code.
// specs/ has the two statements that the laws are about; proofs/ has the laws, one file for each idea.
// Rests on the definitions of `rules` and the kit's lists. Promises each law once, over the element type where it can be.
#![tactic(auto)]
