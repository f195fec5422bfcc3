#![tactic(auto)]
// No code: what follows from the definitions of settlement, K1 to K12 among it. It stands apart so that an edit of the program proves only the program again.
