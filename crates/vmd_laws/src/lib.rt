// The laws of the VMD format, in specs/, no code.

#![tactic(auto)]
