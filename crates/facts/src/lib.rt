// Theorems alone: what follows from the rules of the crate `rules`. Nothing here has to be believed; contracts of inner functions cite its specs/.
#![tactic(auto)]
