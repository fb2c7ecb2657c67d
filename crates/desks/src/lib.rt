// Two desks that save changes to one sheet (document 02, Q-13): what is said and proved of the calls that there are. No code stands here.
#![tactic(auto)]
