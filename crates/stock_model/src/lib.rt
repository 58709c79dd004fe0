//! Every label accounted for. Definitions and theorems alone: what stock control adds up is in `specs/Accounts.antt`.
#![tactic(auto)]
