#![tactic(auto)]

// No code: rules for proofs by hand of functions over references to structs (proofs/).
