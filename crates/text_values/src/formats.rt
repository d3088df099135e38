//! The versions of traces, and what may stand in them.
ghost use Rattle.std.specs.Prelude.{◌≡◌};
ghost use Rattle.text_values.specs.TraceVersions.{format_of};

/// A version of traces. In the second and the third a departure may be seen in part, and in the
/// third the end may be quiet.
#[derive(Clone, Copy)]
pub enum Version {
    First,
    Second,
    Third,
}

/// What may stand in the brackets of a departure: its values, or also `?` for any value.
#[derive(Clone, Copy)]
pub enum Format {
    Complete,
    Partial,
}

impl Version {
    /// What may stand in the brackets of its departures.
    pub fn format(self) -> Format
        ensures { result ≡ format_of self }
    {
        match self {
            Version::First => Format::Complete,
            Version::Second => Format::Partial,
            Version::Third => Format::Partial,
        }
    }
}
