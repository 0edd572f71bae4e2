#![tactic(auto)]

// The table of refusals, as definitions and theorems over those of the calls; there is no code.
