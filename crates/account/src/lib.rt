#![tactic(auto)]

// Demand 3: the account, its claim and the theorem are in specs/ and proofs/; there is no function here.
