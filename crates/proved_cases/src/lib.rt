//! Worked rows, proved of the definitions alone: a query's text, the bytes of a small day, message by message, and the
//! text or the fault's line that `IsAnswer` and `Means` say comes of them. They are the cases of the first six headings
//! of `crates/answer_cases/stdin`, whose answers were written by hand, and which the program answers too. Each is a
//! theorem under its comment, and its proof is one word, since the checker computes both sides. There is no code.
//!
//! Of `proofs/`, `Told` has what a theorem says, `Computed` the answer that each file and query have, `Days` the layout
//! of the messages, and `Rows` the rows, which `check/proved_cases.py` writes.
#![tactic(auto)]
