// No code: what the paper demands of accepted tables, from the checks' answers alone.

#![tactic(auto)]
