//! The definition of the answer to a query over a day file (`IsAnswer`), below every program that answers one, and the
//! texts of sales and of bars. Three laws: a file and a query have at most one answer (`one_answer`), the counted
//! messages and their places decide it (`counted_messages_decide`), and a moment past all messages changes nothing
//! (`moment_past_all`).
//!
//! Not proved: that `IsAnswer` is what a user means, or agrees with the exchange's own figures. The crate
//! `proved_cases` computes what it says of small days.
#![tactic(auto)]

mod answer;
mod answer_laws;
mod text;
mod texts;

pub use answer::Answer;
pub use answer_laws::{counted_messages_decide, moment_past_all, one_answer};
pub use base::OutOfMemory;
pub use day_rows::{Row, counted_are_joined, counts, row_of, rows_are_joined};
pub use outcomes::DayFault;
pub use text::Text;
pub use texts::{text_of_bars, text_of_sales};
