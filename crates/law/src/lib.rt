#![tactic(auto)]

// The law of the book over whole runs (see specs/ and proofs/).
