// Striking settings.
ghost use Rattle.std.specs.Prelude.{◌≡◌, ℕ, ◌<◌, ◌≤◌, not, length, slice_index};
ghost use Rattle.walks.specs.Opening.{under, answer_at, Strikes};

use crate::moving::has;
use bounds::rows::answer_place;
use charges::Charge;

// Whether the answer for setting `k` of module `j` is not below the limit.
fn is_over<C: Charge>(answers: &[C], j: usize, k: u8, limit: C) -> bool
    requires { (160 ≤ length answers.now) × ((j < 20) × (k < 8)) }
    ensures { result ≡ not (under C.Charge.kind (C.Charge.means limit) (answer_at C.Charge.kind C.Charge.means C.Charge.made answers.now j k)) }
{
    limit.is_at_most(answers[answer_place(j, k)])
}

// Strikes each live setting of a later module, from `from` on, whose answer is not below the limit. Leaves off at the
// first module with every setting struck, and gives `None` then.
// Stays: striking is labelled nested loops, which are left from inside.
pub(crate) fn strike<C: Charge>(
    answers: &[C],
    row: [u8; 20],
    from: usize,
    count: usize,
    limit: C,
) -> Option<[u8; 20]>
    requires space { (160 ≤ length answers.now) × (count ≤ 20) }
    requires live { (j : ℕ) → from ≤ j → j < count → 1 ≤ slice_index row j }
    requires bytes { (j : ℕ) → from ≤ j → j < count → slice_index row j < 256 }
    ensures { Strikes C.Charge.kind (C.Charge.means limit) (answer_at C.Charge.kind C.Charge.means C.Charge.made answers.now) row from count result }
{
    let mut still = row;
    let mut dead = false;
    'modules: for j in from..count {
        for k in 0..8u8 {
            if has(row[j], k) && is_over(answers, j, k, limit) {
                still[j] ^= 1 << k;
                if still[j] == 0 {
                    dead = true;
                    break 'modules;
                }
            }
        }
    }
    if dead { None } else { Some(still) }
}
