// The original's answers, computed in specs/; no code.

#![tactic(auto)]
