//! How a run may end without an answer (`DayFault`, `QueryFault`, `RunFault`), and the settings that it is given
//! (`Settings`, `Crew`). The numbers of settings are in their ranges by their types, so no function tests them. The
//! texts of faults, which `thiserror` derives, have no clause.
#![tactic(auto)]

mod crew;
mod day_fault;
mod query_fault;
mod run_fault;
mod settings;

pub use crew::Crew;
pub use day_fault::DayFault;
pub use query_fault::QueryFault;
pub use run_fault::RunFault;
pub use settings::Settings;
