//! How many children a call may have.

ghost use Rattle.std.specs.Prelude.{◌↔◌, IsTrue};
ghost use Rattle.vx_fn_wire.specs.Arity.{Admits};

/// How many children a call of a function may have.
#[derive(Clone, Copy, Debug, PartialEq, Eq, Hash)]
pub enum Arity {
    /// Exactly this many.
    Exact(usize),
    /// From `min` to `max`, both included; without an upper end where `max` is `None`.
    Variadic { min: usize, max: Option<usize> },
}

impl Arity {
    /// Whether a call may have this many children.
    pub fn admits(self, children: usize) -> bool
        ensures { IsTrue result ↔ Admits self children }
    {
        match self {
            Arity::Exact(n) => children == n,
            Arity::Variadic {
                min,
                max: Some(max),
            } => min <= children && children <= max,
            Arity::Variadic { min, max: None } => min <= children,
        }
    }
}
