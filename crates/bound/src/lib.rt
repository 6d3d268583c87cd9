// Why 47 entries are enough where the retractor has at most sixteen men (proofs/). No code here.
#![tactic(auto)]
