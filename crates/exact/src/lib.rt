#![tactic(auto)]
// What the checker accepts is sound. It holds no code: proofs/ says that an accepted text was written of sound events.
