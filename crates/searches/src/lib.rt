// Searches along places: what they find. No code: the theory of the first place that passes a test, as an Option.
#![tactic(auto)]
