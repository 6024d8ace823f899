// The walk's definitions and theorems; the code that meets them is in the crates above.

#![tactic(auto)]
