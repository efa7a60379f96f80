//! The top call: what the program does with its words, its files, its input and its output.
#![tactic(auto)]

pub mod branches;
pub mod command;
pub mod contents;
pub mod ended;
pub mod generate;
pub mod init;
pub mod input;
pub mod laws;
pub mod listing;
pub mod log;
pub mod obey;
mod operands;
pub mod orders;
pub mod output;
pub mod pages;
pub mod play;
pub mod run;
pub mod sets;
pub mod stopped;
pub mod told;
pub mod verified;
mod window;
pub mod words;
