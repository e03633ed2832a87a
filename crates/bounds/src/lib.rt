#![tactic(auto)]
// How long a text can be. It holds no code: proofs/ says that no admitted tape comes near 2^64.
