// The VMD format: definitions and computed examples in specs/, no code.

#![tactic(auto)]
