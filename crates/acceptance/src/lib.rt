// No code: the acceptance table of document 01, proved as one statement about the rules.

#![tactic(auto)]
