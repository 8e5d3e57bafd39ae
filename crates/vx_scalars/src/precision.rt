//! How exactly a statistic is known.

/// What is known of a statistic: its value, a bound on it, or nothing.
#[derive(Debug, Drop)]
pub enum Precision<T> {
    /// The value of the statistic.
    Exact(T),
    /// A bound: a lower one for `Min`, an upper one for `Max`.
    Inexact(T),
    /// Nothing is known.
    Absent,
}
