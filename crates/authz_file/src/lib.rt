//! Subversion's rules file for path-based authorization (Subversion Book, chapter "Server
//! Configuration", "Path-Based Authorization"): who may read or write at which path.
#![tactic(auto)]

mod base;
mod book;
mod entries;
mod faults;
mod grant;
mod graph;
mod items;
mod joined_line;
mod lines;
mod names;
mod ranks;
mod reading;
mod resolving;
mod right;
mod rule;
mod rules;
mod rules_fault;
mod search;
mod section;
mod section_entry;
mod section_place;
mod sections;
mod walk;
mod who;
mod words;

pub use base::Base;
pub use reading::read_rules;
pub use right::Right;
pub use rule::Rule;
pub use rules::Rules;
pub use rules_fault::RulesFault;
