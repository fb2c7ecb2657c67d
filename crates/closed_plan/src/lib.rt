// No code stands here: what closing up leaves of a plan (document 02, Q-11).
#![tactic(auto)]
