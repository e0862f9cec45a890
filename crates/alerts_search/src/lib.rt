// A leg's candidates among a feed's alerts: the search by ids, which of them were met, and where the alerts stand.
#![tactic(auto)]

pub mod ids; // tests of one id, and of a list of ids
pub mod marks; // which alerts were met
pub mod candidates; // the candidates among the alerts of a feed
pub mod places; // where the alerts of a feed stand
