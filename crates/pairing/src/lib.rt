#![tactic(auto)]
// Theorems on the milestones of the text. It holds no code.
