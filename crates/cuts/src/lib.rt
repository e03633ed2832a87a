#![tactic(auto)]
// Theorems on windows of the text: those that follow one another, joined, are the text. There is no code.
