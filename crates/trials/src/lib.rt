// What is tried of a drive in memory whose slots stay as they are: its screens, openings and damaged copies; and openings after changes.
#![tactic(auto)]

pub mod after;
pub mod damage;
pub mod openings;
pub mod shown;
