// What each call writes, and that this is the desk's step: definitions and theorems, no code. The calls' code stands above.
#![tactic(auto)]
