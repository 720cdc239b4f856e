// The answers in a scratch: that for setting k of module j stands at 8j + k.
ghost use Rattle.std.specs.Prelude.{◌≡◌, ℕ, ◌+◌, ◌*◌, ◌<◌, ◌≤◌, true, length};
ghost use Rattle.bounds.specs.Answers.{RowChanged, SameButRow, SameButRows};
ghost use Rattle.tables.specs.Modules.{allows};

use tables::modules::Modules;

// Stays: that the scratch has 192 places is in each clause on it, since it is a slice that the caller lends to each call.
/// The place of the answer for setting `k` of module `j`.
pub fn answer_place(j: usize, k: u8) -> usize
    requires { (j < 20) × (k < 8) }
    ensures { result ≡ 8 * j + k }
{
    8 * j + k as usize
}

/// Changes what stands for each allowed setting of module `j`: `change` is given the module, the setting and what stood.
pub fn change_row<C: Copy, F: Fn(usize, u8, C) -> C>(
    modules: &Modules,
    j: usize,
    change: F,
    scratch: &mut [C],
)
    requires few { j < 20 }
    requires room { 192 ≤ length scratch.old }
    requires callable { (k : ℕ) → k < 8 → allows modules.now j k ≡ true → (x : C) → F.pre change j k x }
    ensures changed { RowChanged (allows modules.now j) (F.post change j) j scratch.old scratch.new }
    ensures others { SameButRow j scratch.old scratch.new }
{
    for k in 0..8 {
        if modules.allows(j, k) {
            let at = answer_place(j, k);
            scratch[at] = change(j, k, scratch[at]);
        }
    }
}

/// The same for each module from `from` on.
pub fn change_rows<C: Copy, F: Fn(usize, u8, C) -> C>(
    modules: &Modules,
    from: usize,
    change: F,
    scratch: &mut [C],
)
    requires within { from ≤ modules.now.count }
    requires room { 192 ≤ length scratch.old }
    requires callable { (j k : ℕ) → from ≤ j → j < modules.now.count → k < 8 → allows modules.now j k ≡ true → (x : C) → F.pre change j k x }
    ensures changed { (j : ℕ) → from ≤ j → j < modules.now.count → RowChanged (allows modules.now j) (F.post change j) j scratch.old scratch.new }
    ensures others { SameButRows from modules.now.count scratch.old scratch.new }
{
    for j in from..modules.count() {
        change_row(modules, j, &change, scratch);
    }
}
