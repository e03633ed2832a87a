#![tactic(auto)]
// What is promised of tapes that steps have written. It holds no code: specs/ says what a run of steps is, proofs/ that what it ends as is admitted and reads back.
