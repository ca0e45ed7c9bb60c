//! Samples that the Rust of documents 000 to 002 ran: the machine's definitions give the same. See tests/oracle.
#![tactic(auto)]
