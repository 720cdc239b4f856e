// How a charge is printed, and how a ceiling is read.
ghost use Rattle.std.specs.Prelude.{◌≡◌, Option};
ghost use Rattle.std.proofs.Common.{ap};
ghost use Rattle.charges.specs.Capped.{capped};
ghost use Rattle.charges.specs.Ranked.{rank};
ghost use Rattle.told.specs.declared.figure.Figure.{Figure};
ghost use Rattle.reports.specs.Figures.{number_figure, rank_figure, count_said, sum_said, worst_said, rank_said};

use charges::{Charge, Count, Ranked, Sum, Worst};
use told::figure::Figure;

// Stays: no From and TryFrom of figures, whose contracts could not name the kind; each kind has its own figure.
/// A kind of charge that can be printed and read.
pub trait Figured: Charge {
    // how a charge is printed
    ghost shows: { Self → Figure };

    // the charge that the numbers of a ceiling say, if they say one
    ghost says: { Figure → Option Self };

    fn figure(self) -> Figure
        ensures { result ≡ shows self };

    /// The charge that these numbers say; `None` where they are no charge of the kind.
    fn of_figure(figure: Figure) -> Option<Self>
        ensures { result ≡ says figure };

    // values that stand for one charge are printed alike
    ghost alike: { (x y : Self) → Self.Charge.means x ≡ Self.Charge.means y → shows x ≡ shows y };
}

impl Figured for Count {
    ghost shows = { λ s. number_figure (capped 65535 s.number) };

    ghost says = { count_said };

    ghost alike = { λ x y e. ap number_figure e };

    fn figure(self) -> Figure {
        Figure::One(u32::from(self.number))
    }

    fn of_figure(figure: Figure) -> Option<Count> {
        match figure {
            Figure::One(n) => Some(Count {
                number: u16::try_from(n).ok()?,
            }),
            Figure::Two(_, _) => None,
        }
    }
}

impl Figured for Sum {
    ghost shows = { λ s. number_figure (capped 4294967295 s.number) };

    ghost says = { sum_said };

    ghost alike = { λ x y e. ap number_figure e };

    fn figure(self) -> Figure {
        Figure::One(self.number)
    }

    fn of_figure(figure: Figure) -> Option<Sum> {
        match figure {
            Figure::One(n) => Some(Sum { number: n }),
            Figure::Two(_, _) => None,
        }
    }
}

impl Figured for Worst {
    ghost shows = { λ s. number_figure (capped 65535 s.number) };

    ghost says = { worst_said };

    ghost alike = { λ x y e. ap number_figure e };

    fn figure(self) -> Figure {
        let worst = u32::from(self.number);
        Figure::One(worst)
    }

    fn of_figure(figure: Figure) -> Option<Worst> {
        match figure {
            Figure::One(n) => Some(Worst {
                number: u16::try_from(n).ok()?,
            }),
            Figure::Two(_, _) => None,
        }
    }
}

impl Figured for Ranked {
    ghost shows = { λ s. rank_figure (rank s.forbidden s.soft) };

    ghost says = { rank_said };

    ghost alike = { λ x y e. ap rank_figure e };

    fn figure(self) -> Figure {
        let (forbidden, soft) = self.parts();
        Figure::Two(forbidden, soft)
    }

    fn of_figure(figure: Figure) -> Option<Ranked> {
        match figure {
            Figure::One(_) => None,
            Figure::Two(forbidden, soft) => Some(Ranked::new(forbidden, soft)),
        }
    }
}
