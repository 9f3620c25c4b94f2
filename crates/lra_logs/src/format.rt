//! Formats of the lines.

ghost use Rattle.std.specs.Prelude.{◌≡◌, IfSome, Some};

/// Format of the lines.
#[derive(Clone, Copy, PartialEq, Eq)]
pub enum Format {
    /// Words, for people.
    Text,
    /// One object of JSON a line, for programs.
    Json,
}

impl Format {
    ghost use Rattle.lra_logs.specs.Formats.{format_word};

    /// Returns the format's name in an option.
    pub fn name(self) -> &'static str
        ensures { result.now ≡ format_word self }
    {
        match self {
            Format::Text => "text",
            Format::Json => "json",
        }
    }

    /// Returns the format that an option names.
    pub fn from_name(text: &[u8]) -> Option<Format>
        ensures found { IfSome result (λ format. text.now ≡ format_word format) }
        ensures only { (format : Format) → text.now ≡ format_word format → result ≡ Some format }
    {
        match text {
            b"text" => Some(Format::Text),
            b"json" => Some(Format::Json),
            _ => None,
        }
    }
}
