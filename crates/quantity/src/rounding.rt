//! Rounding, each time once and from the exact quotient.
ghost use Rattle.std.specs.Prelude.{◌≡◌, ◌+◌, ◌/◌, ◌<◌};
ghost use Rattle.quantity.specs.Rounding.{nearest, Nearest, Only};
ghost use Rattle.quantity.specs.Figures.{figure, Figure, unit_of, three_figures, ThreeFigures};

use crate::units::{Kilograms, Production, Quotient, Tonnes};

/// The whole number nearest to the quotient, a half up.
#[tactic(auto, unfolding(crate::specs::Rounding::nearest))]
pub fn nearest_whole(q: Quotient) -> u64
    ensures value { result ≡ nearest q.num q.den }
    ensures near { Nearest q.num q.den result }
    ensures only { Only (Nearest q.num q.den) result }
{
    let num = u128::from(q.num);
    let den = u128::from(q.den);
    ((2 * num + den) / (2 * den)) as u64
}

/// The unit of the third figure: the least power of ten of which a thousand pass the quotient.
fn unit_of(q: Quotient) -> u64
    ensures { result ≡ unit_of q.num q.den }
{
    let whole = q.num / q.den;
    let tens = whole.checked_ilog10().unwrap_or(0);
    10u64.pow(tens.saturating_sub(2))
}

/// The tie rule of three figures: the whole number nearest to the quotient, a half up.
// By the project's rule apart from `nearest_whole`: methods notes differ on ties of three figures, and not on those of whole numbers.
#[tactic(auto, unfolding(crate::specs::Figures::figure))]
fn figure(q: Quotient) -> u64
    ensures value { result ≡ figure q.num q.den }
    ensures near { Figure q.num q.den result }
{
    nearest_whole(q)
}

/// The quotient to three significant figures, or to a whole number below a thousand.
pub fn three_figures(q: Quotient) -> u64
    ensures value { result ≡ three_figures q.num q.den }
    ensures meets { ThreeFigures q.num q.den result }
    ensures only { Only (ThreeFigures q.num q.den) result }
{
    let unit = unit_of(q);
    let figures = figure(Quotient {
        num: q.num,
        den: unit * q.den,
    });
    figures * unit
}

impl Production {
    /// Production to three significant figures; below a thousand thousandths it is exact.
    pub fn rounded(self) -> Production
        ensures value { result.thousandths ≡ three_figures self.thousandths 1 }
        ensures meets { ThreeFigures self.thousandths 1 result.thousandths }
        ensures only { Only (ThreeFigures self.thousandths 1) result.thousandths }
        ensures small { self.thousandths < 1000 → result.thousandths ≡ self.thousandths }
    {
        let exact = Quotient {
            num: self.thousandths,
            den: 1,
        };
        Production {
            thousandths: three_figures(exact),
        }
    }
}

impl Kilograms {
    /// Whole tonnes, a half up.
    pub fn in_tonnes(self) -> Tonnes
        ensures value { result.tonnes ≡ (self.kg + 500) / 1000 }
        ensures near { Nearest self.kg 1000 result.tonnes }
        ensures only { Only (Nearest self.kg 1000) result.tonnes }
    {
        let exact = Quotient {
            num: self.kg,
            den: 1000,
        };
        Tonnes {
            tonnes: nearest_whole(exact),
        }
    }
}
