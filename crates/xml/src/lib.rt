#![tactic(auto)]
// The escapes against XML 1.0. It holds no code: specs/ says what XML asks, proofs/ that the escapes keep it.
