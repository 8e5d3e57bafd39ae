//! The encodings on the wire: what the nodes of each look like, one level at a time.
//!
//! All code of an encoding stands in its own file of `encodings`. A file of `encoding` or `steps` asks one thing of all
//! encodings, and passes it on to those files by a line for each.
#![tactic(auto)]

mod empty_metadata;
mod encoding;
mod encodings;
mod error;
mod messages;
mod revised;
mod steps;
mod validity;

pub use encoding::Encoding;
pub use encodings::bool::BoolMetadata;
pub use encodings::decimal::DecimalMetadata;
pub use encodings::dict::DictMetadata;
pub use encodings::list_view::ListViewMetadata;
pub use encodings::lists::ListMetadata;
pub use encodings::varbin::VarBinMetadata;
pub use encodings::variant::VariantMetadata;
pub use revised::{revised_holds, revised_id};
pub use steps::fitting::has_message;
pub use steps::{build, metadata, plan};
pub use vx_plans::{ArrayHead, ChildPlan, ChildPlans, EncodingError};
