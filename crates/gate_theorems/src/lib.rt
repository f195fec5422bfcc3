#![tactic(auto)]
// No code: what follows from the definitions of gate. It stands apart so that an edit of the program proves only the program again.
