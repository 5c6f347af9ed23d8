// Lists of rows in order. The functions on rows are in `rows` and `places`; what they mean, and the laws that they share, stand here in
// specs/, over any type of row.
#![tactic(auto)]
