//! What tells one kind of gated file from another.

ghost use Rattle.std.specs.Prelude.{◌≡◌, ◌<◌, ◌^◌, ℕ, Bool, List};
ghost use Rattle.byte_grammar.specs.Gated.{Shape as Gated};

/// A kind of file: its head of 64 bytes, and then records behind gates.
pub trait Shape {
    /// The most bytes of a payload.
    const PAYLOAD: u32;

    /// The place that no gate reaches.
    const WHOLE: u64;

    ghost PAYLOAD: { ℕ };

    ghost WHOLE: { ℕ };

    /// Which payloads the records may have, and the two limits.
    ghost shape: { Gated };

    /// Which heads the file may have.
    ghost is_head: { List ℕ → Bool };

    /// Whether these are the first bytes of such a file.
    fn head(bytes: &[u8; 64]) -> bool
        ensures value { result ≡ is_head bytes.now };

    /// Whether a record may have this payload.
    fn accepts(payload: &[u8]) -> bool
        ensures value { result ≡ shape.accepts payload.now };

    /// The shape has these limits.
    ghost max_payload: { shape.max_payload ≡ PAYLOAD };

    ghost max_file: { shape.max_file ≡ WHOLE };

    /// They are numbers of code.
    ghost payload_fits: { shape.max_payload < 2 ^ 32 };

    ghost whole_fits: { shape.max_file < 2 ^ 64 };
}
