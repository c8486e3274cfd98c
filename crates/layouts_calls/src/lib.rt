#![tactic(auto)]
// The theorems about the calls that `layouts` writes (W-201), and no code. They stand apart from the definition, so that no must-fail
// edit of `layouts` proves them again.
