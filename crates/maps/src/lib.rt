// Ordered maps as ascending lists, with their laws. No code.
#![tactic(auto)]
