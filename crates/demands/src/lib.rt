// The demands as a whole: laws over sequences of calls, and no code. See specs/ and proofs/.
#![tactic(auto)]
