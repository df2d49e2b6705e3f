// What the float calls mean (specs/), and the laws on floats that every crate above cites (proofs/), all over
// the format. There is no code here: a crate of its own, so that they are proved once.
#![tactic(auto)]
