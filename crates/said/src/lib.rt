// No code: the tables hold what the lines of a text that reads say.

#![tactic(auto)]
