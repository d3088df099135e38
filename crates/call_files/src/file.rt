//! The files that a call reads.
ghost use Rattle.std.specs.Prelude.{◌≡◌};
ghost use Rattle.call_files.specs.Files.{limit_of, word_of};

/// A file that a call reads.
#[derive(Clone, Copy, PartialEq, Eq)]
pub enum File {
    Specification,
    Trace,
    Explanation,
}

impl File {
    /// The word for the file in reports.
    pub fn word(self) -> &'static str
        ensures { result.now ≡ word_of self }
    {
        match self {
            File::Specification => "specification",
            File::Trace => "trace",
            File::Explanation => "explanation",
        }
    }

    /// The most bytes that the file may have.
    pub fn limit(self) -> u32
        ensures { result ≡ limit_of self }
    {
        match self {
            File::Specification => 1_048_576,
            File::Trace => 8_388_608,
            File::Explanation => 134_217_728,
        }
    }
}
