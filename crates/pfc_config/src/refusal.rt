// Why a configuration is refused.
ghost use Rattle.std.specs.Prelude.{◌≡◌, Some};
ghost use Rattle.pfc_config.specs.Kind.{kind_text};

use std::fmt::{self, Display, Formatter};
use thiserror::Error;

/// Why a line is refused, in the order in which the reasons are looked for.
#[derive(Clone, Copy, Debug, PartialEq, Eq)]
pub enum Kind {
    /// More than 4096 bytes, or a file of more than 1048576 bytes.
    TooLong,
    /// A form or a directive of XRootD's that this cache doesn't have.
    Unsupported,
    /// A directive that begins with `pfc.` and that nobody has.
    Unknown,
    /// Another number of words than the directive takes.
    Arity,
    /// A word that isn't of the directive's form.
    Number,
    /// A value outside the directive's range.
    Range,
    /// A directive with a default that stood on an earlier line.
    Twice,
}

/// A configuration that is refused for its first bad line.
#[derive(Clone, Copy, Debug, PartialEq, Eq, Error)]
pub enum ConfigRefusal {
    /// Lines are numbered from 1; a file that is too long is refused as line 0.
    #[error("config {line} {kind}")]
    Bad { line: u32, kind: Kind },
}

impl Kind {
    /// The word that is printed for this kind.
    pub fn text(self) -> &'static str
        ensures { result.now ≡ kind_text self }
    {
        match self {
            Kind::TooLong => "toolong",
            Kind::Unsupported => "unsupported",
            Kind::Unknown => "unknown",
            Kind::Arity => "arity",
            Kind::Number => "number",
            Kind::Range => "range",
            Kind::Twice => "twice",
        }
    }
}

impl Display for Kind {
    ghost output = { λ kind. Some (kind_text kind) };

    fn fmt<W: fmt::Write>(&self, f: &mut Formatter<W>) -> fmt::Result {
        f.write_str(self.text())
    }
}
