#![tactic(auto)]
// Half-built tapes. It holds no code: specs/ says what a step adds and when it is refused, proofs/ that what steps build is admitted.
