//! Closed facts on definitions of other crates, for which none of these has to wait. Nothing here runs.
#![tactic(auto)]
