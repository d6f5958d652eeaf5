// The three demands over the real calls: any answers and any words that meet the promises of `get_words`, `set_words`, `next_words`, `length`
// and `reserve`, whatever program gave them. No program: only specs/ and proofs/.
#![tactic(auto)]
