//! Tests of `gathering`, `dispatcher`, `pipelines` and `schedules`, where no clause speaks: which runs are made, on
//! which threads, in which order and when; that a piece is added once and a slow task given again; when a gate is
//! called; what comes of refused memory. What is shown here and proved nowhere, `docs/PROOFS.md` lists.
#![tactic(auto)]

#[cfg(test)]
mod claims;
#[cfg(test)]
mod event_lists;
#[cfg(test)]
mod first;
#[cfg(test)]
mod gatherers;
#[cfg(test)]
mod link;
#[cfg(test)]
mod pieces;
#[cfg(test)]
mod points;
#[cfg(test)]
mod refusals;
#[cfg(test)]
mod refused_growths;
#[cfg(test)]
mod threads;
#[cfg(test)]
mod worker_runs;
