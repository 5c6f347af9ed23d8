// Theorems alone, over the definitions of other crates: the marked rows of the table of values (specs/RowLaws), the parts of
// the listed codes (specs/PartLaws).
#![tactic(auto)]
