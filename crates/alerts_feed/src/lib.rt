// The alerts of a GTFS Realtime message.
#![tactic(auto)]
