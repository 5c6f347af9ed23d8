// Theorems alone, over the definitions of the calls: demand 3, whose words docs/PROMISES.md quotes. What a book holds is what its history
// says (specs/Demand states it, proofs/HistoryLaws proves it).
#![tactic(auto)]
