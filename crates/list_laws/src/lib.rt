//! What is so of all lists, options and truth values and that the standard library doesn't say: the
//! elements of lists that are longer at the end, mapped, changed at a place or taken one by one; what
//! holds of all elements, and which are contained; and when two options or two truth values are the same.
//!
//! There is no code here and no definition, only lemmas (`proofs/`) that proofs of other crates cite.
//! A lemma on the functions on lists that a session is written with stands in `session_model`.
#![tactic(auto)]
