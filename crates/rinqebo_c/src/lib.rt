//! The calls of a session, for C and for ordinary Rust.
//!
//! Each export has the clauses of the call of `rinqebo_session` that it makes. What a caller owes,
//! which nothing checks, is in `include/rinqebo.h` and in the `requires*`.
#![tactic(auto)]

mod calls;
