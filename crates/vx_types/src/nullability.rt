//! Whether rows may be null.

/// Whether the rows of a type may be null.
#[derive(Clone, Copy, Debug, PartialEq, Eq)]
pub enum Nullability {
    /// Each row has a value.
    NonNullable,
    /// A row may be null.
    Nullable,
}
