// The least of what the settings of a module come to.
ghost use Rattle.counts.specs.Least.{meant, lesser, or_zero, least};
ghost use Rattle.tables.specs.Modules.{allows};
ghost use Rattle.std.specs.Prelude.{◌≡◌, ℕ, ◌<◌, true};

use charges::Charge;
use tables::modules::Modules;

/// The lesser of the least so far and one more.
pub fn lesser<C: Charge>(least: Option<C>, more: C) -> Option<C>
    ensures { meant C.Charge.means result ≡ lesser C.Charge.kind (meant C.Charge.means least) (C.Charge.means more) }
{
    match least {
        Some(least) if least.is_at_most(more) => Some(least),
        _ => Some(more),
    }
}

/// The least, and zero where there is none.
pub fn or_zero<C: Charge>(least: Option<C>) -> C
    ensures { C.Charge.means result ≡ or_zero C.Charge.kind (meant C.Charge.means least) }
{
    least.unwrap_or(C::zero())
}

/// The least of what `charge` gives for the allowed settings of module `i`, and zero where none is allowed.
pub fn least<C: Charge, F: Fn(usize, u8) -> C>(modules: &Modules, i: usize, charge: F) -> C
    requires few { i < 20 }
    requires callable { (k : ℕ) → k < 8 → F.pre charge i k }
    ensures { (value : ℕ → C.Charge.kind.V) → ((k : ℕ) → k < 8 → allows modules.now i k ≡ true → (r : C) → F.post charge i k r → C.Charge.means r ≡ value k) → C.Charge.means result ≡ least C.Charge.kind (allows modules.now i) value }
{
    let mut least = None;
    for k in 0..8 {
        if modules.allows(i, k) {
            least = lesser(least, charge(i, k));
        }
    }
    or_zero(least)
}
