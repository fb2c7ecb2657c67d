// Columns for the commissioning crew (document 02, Q-12): what is defined and proved of them. No code stands here.
#![tactic(auto)]
