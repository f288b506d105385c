//! Which parts of a value a codec can decode or encode alone.

/// What a codec can decode of a value without the rest of it.
#[derive(Clone, Copy, Debug)]
pub struct PartialDecoderCapability {
    /// Whether it reads a part of the encoded value alone.
    pub partial_read: bool,
    /// Whether it decodes a part of the value alone.
    pub partial_decode: bool,
}

/// What a codec can encode of a value without the rest of it.
#[derive(Clone, Copy, Debug)]
pub struct PartialEncoderCapability {
    /// Whether it encodes a part of the value alone.
    pub partial_encode: bool,
}
