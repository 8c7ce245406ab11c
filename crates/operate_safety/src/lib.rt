// No code: demand 2 of document 01 over every list of the outstation's calls; what they hand over is operable.

#![tactic(auto)]
