//! Forecasts: in which order the slots of a table would leave, and with what credit. This crate reads the table, runs any
//! order over its rows, and compares the pile with the flat order. It depends on `orders` and `std`.
#![tactic(auto)]

mod fault;
mod forecast;
mod leaving;
mod table;

pub use fault::{ForecastError, LineFault, Reason};
pub use forecast::{Forecast, foretell};
pub use leaving::leavers;
pub use table::{Row, read_rows};
