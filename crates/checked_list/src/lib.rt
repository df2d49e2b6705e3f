// The checked list: each figure that docs/RULES.md, "Figures", marks for it, in one list (specs/), and one claim that the
// checker computes (proofs/). There is no code here.
#![tactic(auto)]
