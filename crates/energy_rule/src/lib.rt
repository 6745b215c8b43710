// Least energy: the rules of its cells, what the cells mean, and which numbers they hold. No code: a theory.
#![tactic(auto)]
