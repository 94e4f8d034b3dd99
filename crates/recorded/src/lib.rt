#![tactic(auto)]

// Recorded events, computed over the definition: specs/Recorded.antt. There is no function here.
