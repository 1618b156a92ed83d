//! Tests of `plain`, `run`, `run_blocks`, `answer` and `rehearse`, where no clause speaks: that they succeed once there
//! is memory, and with each allocation refused in turn; which threads there are and what each runs, while a gate holds
//! or counts runs; devices that fail at some call; the texts of faults. Answers to days, by every crew and by
//! rehearsals, and command lines are cases of `answer_cases`. What is shown here and proved nowhere, `docs/PROOFS.md`
//! lists.
#![tactic(auto)]

#[cfg(test)]
mod answering;
#[cfg(test)]
mod blocks;
#[cfg(test)]
mod faults;
#[cfg(test)]
mod refusals;
#[cfg(test)]
mod threads;
#[cfg(test)]
mod whole_runs;
