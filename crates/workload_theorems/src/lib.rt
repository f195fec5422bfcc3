#![tactic(auto)]
// No code: what holds of every load is in specs, over its definitions and those of the session, and its proof in proofs.
