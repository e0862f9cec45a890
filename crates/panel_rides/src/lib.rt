// The ride checks of document 01 that are marked P, computed. They stand apart: no edit of a definition waits for them.
#![tactic(auto)]
