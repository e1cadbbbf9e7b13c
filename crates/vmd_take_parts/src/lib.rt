// What parts a take has, when they fit into lent buffers, and what the calls for them answer: definitions and laws, no code.

#![tactic(auto)]
