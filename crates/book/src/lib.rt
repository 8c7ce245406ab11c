// No code: the event book of document 01, and demand 3's theorem over every list of calls.

#![tactic(auto)]
