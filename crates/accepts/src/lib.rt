#![tactic(auto)]
// The proviso of demand 3, and theorems that the checker accepts what is written. It holds no code.
