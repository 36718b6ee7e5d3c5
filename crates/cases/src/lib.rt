// What the tables of cases share: the words of a row, the sound records at hand, the files that are made of them, and the changes of a file.
#![tactic(auto)]

pub mod changes;
pub mod files;
pub mod words;
