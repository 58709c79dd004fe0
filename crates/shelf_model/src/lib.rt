//! Shelves: what saving a queue and returning to it mean. Definitions and theorems alone; the calls are in crate `shelf`.
#![tactic(auto)]
