// What is proved of the token step and of the reader, besides the promises of the functions: see specs/. There is no code here.
#![tactic(auto)]
