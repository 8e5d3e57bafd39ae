//! How a blob is written.

/// The position of a blob, whether its buffers are aligned there, and how deep it may nest.
#[derive(Clone, Copy, Debug, PartialEq, Eq)]
pub struct SerializeOptions {
    /// The position at which the blob is to stand, in bytes. Alignments are counted with it.
    pub offset: usize,
    /// Whether pads bring each buffer, and the message, to a position of its alignment.
    pub include_padding: bool,
    /// Whether 128 tables may nest in a message instead of 64, and a tree may have 126 levels of
    /// nodes instead of 62.
    pub deep: bool,
}

impl Default for SerializeOptions {
    ghost use Rattle.std.specs.Prelude.{◌≡◌, false};
    ghost use Rattle.vx_serde.specs.declared.options.SerializeOptions.{SerializeOptions};

    ghost is_default = { λ o. (o.offset ≡ 0) × (o.include_padding ≡ false) × (o.deep ≡ false) };

    /// Position 0, no padding, and not deep.
    fn default() -> SerializeOptions {
        SerializeOptions {
            offset: 0,
            include_padding: false,
            deep: false,
        }
    }
}
