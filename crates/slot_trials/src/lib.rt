// Slots of a drive in memory revoked, added and changed, each call held to its list of sector writes.
#![tactic(auto)]

pub mod changes;
mod listed;
