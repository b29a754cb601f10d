// What is proved of a header, of the data behind it and of a message unit, besides the promises of the functions: see specs/. There is no code here.
#![tactic(auto)]
