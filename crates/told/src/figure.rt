// The text of a charge.
ghost use Rattle.told.specs.Texts.{figure_text};
ghost use Rattle.std.specs.Prelude.{Some};

use std::fmt;

/// A charge as it is printed: one number, or two with a space between them.
#[derive(Debug, Clone, Copy, PartialEq)]
pub enum Figure {
    One(u32),
    Two(u16, u32),
}

impl fmt::Display for Figure {
    ghost output = { λ x. Some (figure_text x) };

    fn fmt<W: fmt::Write>(&self, f: &mut fmt::Formatter<W>) -> fmt::Result {
        match *self {
            Figure::One(n) => write!(f, "{n}"),
            Figure::Two(m, n) => write!(f, "{m} {n}"),
        }
    }
}
