// What the specs hold of the largest writing of a format: there is nothing to run.
#![tactic(auto)]
