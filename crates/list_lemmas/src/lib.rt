//! Lemmas on lists, options and numbers that name nothing of the domain.
#![tactic(auto)]
