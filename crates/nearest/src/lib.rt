#![tactic(auto)]

// The theory of one half, as definitions and theorems over those of the half; there is no code.
