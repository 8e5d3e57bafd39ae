//! The commands of the program over one blob or one expression: `recode`, `expr` and `make`.
#![tactic(auto)]

mod expr;
mod make;
mod options;
mod recode;

pub use expr::{parse_expr, run_expr};
pub use make::{MakeWords, parse_make, run_make};
pub use options::Options;
pub use recode::{RecodeWords, parse_recode, run_recode};
