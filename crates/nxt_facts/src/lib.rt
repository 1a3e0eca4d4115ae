//! Facts on lists, sums, counts, pairs and tests that name nothing of this project. There is no code here.
#![tactic(auto)]
