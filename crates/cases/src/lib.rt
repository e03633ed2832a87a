#![tactic(auto)]
// Document 01's cases that are proved: one table, one statement. It holds no code.
