// What is proved of names and spellings, besides the promises of the functions: see specs/. There is no code here.
#![tactic(auto)]
