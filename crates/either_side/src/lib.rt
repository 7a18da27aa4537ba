// No code: the numbers on either side of each edge that are to be proved stand in specs/ as one table, and in proofs/ its
// theorem. The program `numbers` runs the others.
#![tactic(auto)]
