// What is proved of lists and of coordinates, besides the promises of the functions: see specs/. There is no code here.
#![tactic(auto)]
