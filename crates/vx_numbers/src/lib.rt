//! Numbers: their kinds, a single number of a kind, and the widths of the integers that hold decimals.
#![tactic(auto)]

mod decimal_type;
pub mod laws;
mod ptype;
mod value;

pub use decimal_type::DecimalType;
pub use ptype::PType;
pub use value::PValue;
