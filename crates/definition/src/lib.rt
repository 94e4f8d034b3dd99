#![tactic(auto)]

// The definition of an event is in specs/; there is no function here.
