#![tactic(auto)]
// The grammar of the events of the walk. It holds no code.
