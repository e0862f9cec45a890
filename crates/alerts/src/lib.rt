// Alerts: their form, their labels, which are candidates of a leg, and which apply to it. `alerts_label` is code.
#![tactic(auto)]
