// What is proved of the forms of program data, besides the promises of the functions: see specs/. There is no code here.
#![tactic(auto)]
