// The overlay: the state of a panel, its layout, its look-ups, and what each call makes of it.
#![tactic(auto)]
