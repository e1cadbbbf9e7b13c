// An excerpt of a section and of a take: definitions and laws, in specs/. There is no code here.

#![tactic(auto)]
