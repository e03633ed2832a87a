#![tactic(auto)]
// How deep a walk goes. It holds no code: proofs/ says that fuel for 64 containers is enough for every admitted tape.
