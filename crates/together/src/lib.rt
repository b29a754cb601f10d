// The worked rows of the scope, proved together, its example message, and what is proved of the functions for C: see specs/. There is no code here.
#![tactic(auto)]
