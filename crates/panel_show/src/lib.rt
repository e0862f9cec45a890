// States and cards as a person reads them. What is read is total, and something is written also where nothing stands.
#![tactic(auto)]

mod parts; // a reader of values, and the values as they are printed
pub mod state; // the supplier's raw records behind a train
mod large; // letters of five rows
pub mod card; // the card on a panel
