// What a finding means: definitions and theorems, nothing runs.
#![tactic(auto)]
