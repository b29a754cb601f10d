// What is proved of messages and of their records, besides the promises of the functions: see specs/. There is no code here.
#![tactic(auto)]
