//! Two lanes into one: what the joining of two queues leaves of a third. The meaning is in `specs/`; there are no functions here.
#![tactic(auto)]
