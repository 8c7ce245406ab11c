// No code: definitions and laws that every layer shares.

#![tactic(auto)]
