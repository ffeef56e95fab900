//! How text is laid out: in one line or in lines.
ghost use Rattle.std.specs.Prelude.{◌≡◌};
ghost use Rattle.hir_pretty_layout.specs.Page.{format_in_line, format_after_end};

/// How the next text is laid out.
#[derive(Clone, Copy, PartialEq, Eq)]
pub enum LineFormat {
    /// In one line: a break is a space.
    Oneline,
    /// In lines, within a line that was begun.
    Newline,
    /// In lines, where the next text begins a line and is indented by its level.
    Indentation,
}

impl LineFormat {
    /// The format after text that ends within a line.
    pub(crate) fn in_line(self) -> LineFormat
        ensures { result ≡ format_in_line self }
    {
        match self {
            LineFormat::Oneline => LineFormat::Oneline,
            LineFormat::Newline => LineFormat::Newline,
            LineFormat::Indentation => LineFormat::Newline,
        }
    }

    /// The format after a line end.
    pub(crate) fn after_end(self) -> LineFormat
        ensures { result ≡ format_after_end self }
    {
        match self {
            LineFormat::Oneline => LineFormat::Oneline,
            LineFormat::Newline => LineFormat::Indentation,
            LineFormat::Indentation => LineFormat::Indentation,
        }
    }
}
