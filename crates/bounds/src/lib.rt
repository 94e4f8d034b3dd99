#![tactic(auto)]

// What the definition of an event is held to, beside the account: laws in specs/ and proofs/; there is no function here.
