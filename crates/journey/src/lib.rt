// The journey card: its form, and what the realtime state makes of it.
#![tactic(auto)]
