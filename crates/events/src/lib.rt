#![tactic(auto)]
// The definition of the text. It holds no code: specs/ says what is written, proofs/ what follows from it.
