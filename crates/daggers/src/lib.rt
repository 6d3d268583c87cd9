// The lines that document 01 marks with †, as it writes them (specs/), and that they hold of every answer that the contracts allow
// (proofs/), with the ported list of some of its boards. No code here.
#![tactic(auto)]
