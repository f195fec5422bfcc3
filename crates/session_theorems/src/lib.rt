#![tactic(auto)]
// No code: what the session's P prints of a settled day is in specs, over the definitions of the channel and of the session, and its proof in proofs.
