//! How values are converted: whether numbers that do not fit wrap or become null, as they do by default.
ghost use Rattle.std.specs.Prelude.{◌≡◌};

/// How numbers that do not fit in the new type are converted. The default is that of arrow2: they become null.
#[derive(Clone, Copy, Debug, PartialEq, Eq)]
pub struct CastOptions {
    /// Whether such numbers wrap around; otherwise they become null.
    pub wrapped: bool,
}

impl Default for CastOptions {
    ghost use Rattle.std.specs.Prelude.{◌≡◌, false};

    ghost is_default = { λ options. options.wrapped ≡ false };

    /// Returns the options of arrow2: numbers that do not fit become null.
    fn default() -> Self {
        CastOptions { wrapped: false }
    }
}

impl CastOptions {
    /// Returns the same options, but with numbers wrapping around or not.
    pub fn with_wrapped(self, wrapped: bool) -> CastOptions
        ensures { result.wrapped ≡ wrapped }
    {
        CastOptions { wrapped }
    }
}
