#![tactic(auto)]
// No code: what follows from the definitions of writing and answering. It stands apart so that an edit of the program proves only the program again.
