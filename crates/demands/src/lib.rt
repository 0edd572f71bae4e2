#![tactic(auto)]

// The demands, as statements and theorems over benches and the words of the calls; there is no code.
