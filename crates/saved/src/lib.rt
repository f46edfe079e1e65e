// The saved form of 02 (i): what the writer writes and what the reader makes of bytes, as definitions, and laws of them, and no code.
// See specs/ and proofs/. The writer is crate save, the reader crate load.
#![tactic(auto)]
