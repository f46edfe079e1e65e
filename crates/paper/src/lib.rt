// The paper in its own terms: its definitions beside ours, and laws that compare them, and no code. See specs/ and proofs/.
#![tactic(auto)]
