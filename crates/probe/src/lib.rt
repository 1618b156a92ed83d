//! Prices the executions of a day, and keeps the sales that a query asks for.
//!
//! An execution probes the table of orders by its reference, and becomes a sale at the price of the first order that
//! gave it, if that stands before it (`price_all`, `price_into`). Those sales stay (`keep`) that have shares, that no
//! break names and that the selection admits: by locate, kind, and a span with its start and without its end.
#![tactic(auto)]

mod keeping;
mod locates;
mod pricing;
mod selection;

pub use broken_trades::Breaks;
pub use keeping::keep;
pub use locates::LocateList;
pub use order_table::{OrderTable, OutOfMemory, PricesExecutions};
pub use pricing::{Priced, price_all, price_into};
pub use row_types::{Execution, Kind, Sale, Unknown};
pub use selection::{Kinds, Locates, Selection, Span};
