// The texts of an alert matched with a leg: whether they are about its line, and the texts as they are searched.
#![tactic(auto)]

pub mod lines; // whether a text is about a line
pub mod blob; // an alert's texts as they are searched
pub mod word; // the marks of lines as a word
