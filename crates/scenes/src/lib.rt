// No code: document 01's starred examples in one table, the machine row by row, and histories that reach the bounds of demand 3.
#![tactic(auto)]
