// No code: what the calls and the program promise.
#![tactic(auto)]
