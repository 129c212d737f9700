// Cards for the finding: a table of bytes and what is found of them, and the claim that it is. Nothing runs.
#![tactic(auto)]
