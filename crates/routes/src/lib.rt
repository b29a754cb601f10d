// What is proved of the command table and of routes, besides the promises of the functions: see specs/. There is no code here.
#![tactic(auto)]
