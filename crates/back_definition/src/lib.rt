// Stepping back over a block (document 02, Q-9): what is defined and proved of it. No code stands here.
#![tactic(auto)]
