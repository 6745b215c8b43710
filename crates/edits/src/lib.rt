// Edits of a sequence: what they spell, and that every run of calls keeps a fold as it would be made afresh. No code: a theory.
#![tactic(auto)]
