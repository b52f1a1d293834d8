// No code: the definitions of histories of calls, and theorems over them (demands 2 and 3 of document 01).
#![tactic(auto)]
