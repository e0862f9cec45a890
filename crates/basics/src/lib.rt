// What every layer uses: lists, options and texts, with their laws. No code.
#![tactic(auto)]
