#![tactic(auto)]
// No code: what follows from the definition of calls over records, K1 to K12 among it. It stands apart so that an edit of the program proves only the program again.
