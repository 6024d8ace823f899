// No code: the paper's cards 1 to 9 as texts, and that the check over texts answers them as the paper says.

#![tactic(auto)]
