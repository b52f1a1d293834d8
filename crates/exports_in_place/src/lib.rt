// The calls of a link in place, for other languages: whole inputs, under plain C names. The bench links them.
#![tactic(auto)]

mod runs;
