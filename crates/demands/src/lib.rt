#![tactic(auto)]

// Demand 3 of the running bridge, and of what a host sees of it: laws in specs/ and proofs/; there is no function here.
