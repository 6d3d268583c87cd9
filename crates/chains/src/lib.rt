// What a chain of legal moves to a board is (specs/), and that it is one strict retraction after another, each of the board that the one before
// un-makes (proofs/). No code here.
#![tactic(auto)]
