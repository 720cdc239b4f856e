// From one beginning to the next.
ghost use Rattle.std.specs.Prelude.{◌≡◌, ℕ, suc, ◌-◌, ◌<◌, ◌≤◌, true, [], ◌∷◌, MatchOption, slice_index};
ghost use Rattle.walks.specs.Settings.{has, settings_from, row_domains};
ghost use Rattle.walks.specs.Trails.{GoesOn, GoesDown};
ghost use Rattle.theory.specs.Machine.{next, down};

use crate::trail::Trail;

// Whether setting `k` is in the mask.
// Stays: one line like that of `Modules::allows`, which asks a module and not a mask; a third function would be longer than both.
pub(crate) fn has(mask: u8, k: u8) -> bool
    requires { k < 8 }
    ensures { result ≡ has mask k }
{
    (mask >> k) & 1 == 1
}

// The lowest setting in the mask, from `k` on.
fn lowest(mask: u8, k: u8) -> Option<u8>
    requires { k ≤ 8 }
    ensures { MatchOption result (settings_from (has mask) k (8 - k) ≡ []) (λ s. (k ≤ s) × (s < 8) × (has mask s ≡ true) × (settings_from (has mask) k (8 - k) ≡ s ∷ settings_from (has mask) (suc s) (7 - s))) }
{
    (k..8).find(|s| has(mask, *s))
}

impl Trail {
    // On to the next live setting of the last module, or of one before it; the walk is finished where there is none.
    pub(crate) fn next(&mut self)
        requires within { self.old.len ≤ 20 }
        requires few { (i : ℕ) → i < self.old.len → slice_index self.old.path i < 8 }
        ensures { GoesOn self.old self.new }
    {
        for i in (0..self.len).rev() {
            if let Some(k) = lowest(self.live[i][i], self.path[i] + 1) {
                self.path[i] = k;
                self.len = i + 1;
                return;
            }
        }
        self.len = 0;
    }

    // Down to the first setting of the next module that `row` has live, or on if there is none.
    pub(crate) fn down(&mut self, row: [u8; 20])
        requires within { self.old.len < 20 }
        requires few { (i : ℕ) → i < self.old.len → slice_index self.old.path i < 8 }
        ensures { GoesDown self.old row self.new }
    {
        match lowest(row[self.len], 0) {
            Some(k) => {
                self.path[self.len] = k;
                self.live[self.len] = row;
                self.len += 1;
            }
            None => self.next(),
        }
    }
}
