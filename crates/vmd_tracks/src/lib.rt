// What the tracks of a section are, and what tidying leaves of them: definitions and laws, no code.

#![tactic(auto)]
