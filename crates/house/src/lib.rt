// The house form: no code.
#![tactic(auto)]
