// Whether an alert applies to a leg, and its label. An alert is known by its place.
#![tactic(auto)]

pub mod texts; // an alert's texts: its label, and what they say of the leg
pub mod hits; // which of the leg's ids an alert's ids hit
pub mod applies; // what the tests come to, in their order
pub mod known; // whether an alert applies, by what is known of its texts
