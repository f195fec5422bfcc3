#![tactic(auto)]
// No code: runs of both ends, by computation.
