// Theorems alone: lists, places, sums and numbers. No word of the rules.
#![tactic(auto)]
