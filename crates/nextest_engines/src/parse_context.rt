//! The engines that read a configuration's texts.

/// The engines that read the texts of a configuration.
#[derive_where(Clone, Copy)]
pub struct ParseContext<'e, F, S> {
    /// Reads the values of `filter` and `default-filter`.
    pub filters: &'e F,
    /// Reads the values of `platform`.
    pub specs: &'e S,
}
