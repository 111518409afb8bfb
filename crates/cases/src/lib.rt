// No code: the cases (a) to (l) that 01 works out, in one table, and the theorem over all of it.
#![tactic(auto)]
