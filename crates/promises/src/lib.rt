// Theorems about lists of settings and about reading back, as document 01 promises them. It has no functions.
#![tactic(auto)]
