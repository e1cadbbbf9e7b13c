// The canonical form of a file: definitions and laws; no code.

#![tactic(auto)]
