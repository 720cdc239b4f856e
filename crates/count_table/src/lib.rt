// The table of counts that a bound prepares in its scratch: the count of setting k of module j at 8j + k, and the least of
// module j at 160 + j. In the end the answers stand in the place of the counts.
#![tactic(auto)]

ghost use Rattle.std.specs.Prelude.{◌≡◌, ℕ, ◌+◌, ◌≤◌, length, take, slice_index_or};
ghost use Rattle.bounds.specs.Answers.{Rows};
ghost use Rattle.count_table.specs.Table.{Tabled, Answered, Prepared};
ghost use Rattle.counts.specs.Counting.{MayCount, Counts};
ghost use Rattle.counts.specs.Floors.{counted, floor_over, only};
ghost use Rattle.tables.specs.Joins.{joined_from};
ghost use Rattle.tables.specs.Modules.{allows};

use bounds::rows::{answer_place, change_row, change_rows};
use charges::Charge;
use counts::begun::Begun;
use counts::least::least;
use counts::past;
use tables::modules::Modules;

// Where the leasts stand.
const LEASTS: usize = 160;

// A charge joined with the least counts of the modules from `from` to before `to`.
fn join_leasts<C: Charge>(start: C, scratch: &[C], from: usize, to: usize) -> C
    requires { (192 ≤ length scratch.now) × ((to ≤ 20) × (from ≤ to)) }
    ensures { (z : C) → C.Charge.means result ≡ C.Charge.kind.join (C.Charge.means start) (joined_from C.Charge.kind (λ i. C.Charge.means (slice_index_or scratch.now (160 + i) z)) from to) }
{
    let mut sum = start;
    for i in from..to {
        sum = sum.joined(scratch[LEASTS + i]);
    }
    sum
}

// Writes the counts and the least of each later module.
fn write_table<C: Charge, F: Fn(usize, u8) -> C>(begun: &Begun, count: F, scratch: &mut [C])
    requires counted { MayCount (F.pre count) begun.now.len begun.now.modules.now.count }
    requires room { 192 ≤ length scratch.old }
    ensures { (f : ℕ → ℕ → C.Charge.kind.V) → Counts C.Charge.means (F.post count) f begun.now.len begun.now.modules.now.count → Tabled C.Charge.kind C.Charge.means begun.now.modules.now f begun.now.len scratch.new }
{
    change_rows(
        begun.modules,
        begun.len,
        |j: usize, k: u8, _: C| -> C
            requires { F.pre count j k }
            ensures { F.post count j k result }
        { count(j, k) },
        scratch,
    );
    for j in begun.len..begun.modules.count() {
        scratch[LEASTS + j] = least(begun.modules, j, |j, k| scratch[answer_place(j, k)]);
    }
}

// Puts answers in the place of the counts: a charge joined with the least of each other module, and with the count. Gives
// the charge joined with the least of each module.
fn write_answers<C: Charge>(modules: &Modules, start: C, d: usize, scratch: &mut [C]) -> C
    requires within { d ≤ modules.now.count }
    requires room { 192 ≤ length scratch.old }
    ensures { (f : ℕ → ℕ → C.Charge.kind.V) → Tabled C.Charge.kind C.Charge.means modules.now f d scratch.old → Answered C.Charge.kind C.Charge.means modules.now f (C.Charge.means start) d (C.Charge.means result) scratch.new }
{
    let mut before = start;
    for j in d..modules.count() {
        let others = join_leasts(before, scratch, j + 1, modules.count());
        change_row(modules, j, |_, _, count| others.joined(count), scratch);
        before = before.joined(scratch[LEASTS + j]);
    }
    before
}

/// Writes the answer for each allowed setting of each later module; gives the floor.
pub fn prepare_by<C: Charge, F: Fn(usize, u8) -> C>(begun: &Begun, count: F, scratch: &mut [C]) -> C
    requires counted { MayCount (F.pre count) begun.now.len begun.now.modules.now.count }
    requires room { 192 ≤ length scratch.old }
    ensures { (f : ℕ → ℕ → C.Charge.kind.V) → Counts C.Charge.means (F.post count) f begun.now.len begun.now.modules.now.count → Prepared C.Charge.kind C.Charge.means begun.now.modules.now begun.now.sheet.now (take begun.now.len begun.now.path.now) f begun.now.len (C.Charge.means result) scratch.new }
{
    write_table(begun, count, scratch);
    write_answers(
        begun.modules,
        past(begun.sheet, begun.path, begun.len),
        begun.len,
        scratch,
    )
}

/// Writes and gives the same by forward counts, or with `DIRECTED` by both counts joined.
pub fn prepare_counted<C: Charge, const DIRECTED: bool>(begun: &Begun, scratch: &mut [C]) -> C
    requires room { 192 ≤ length scratch.old }
    ensures answers { Rows C.Charge.means (allows begun.now.modules.now) (λ j k. floor_over C.Charge.kind begun.now.modules.now begun.now.sheet.now (only begun.now.modules.now j k) (counted C.Charge.kind begun.now.modules.now begun.now.sheet.now DIRECTED (take begun.now.len begun.now.path.now)) (take begun.now.len begun.now.path.now)) begun.now.len begun.now.modules.now.count scratch.new }
    ensures value { C.Charge.means result ≡ floor_over C.Charge.kind begun.now.modules.now begun.now.sheet.now (allows begun.now.modules.now) (counted C.Charge.kind begun.now.modules.now begun.now.sheet.now DIRECTED (take begun.now.len begun.now.path.now)) (take begun.now.len begun.now.path.now) }
{
    // Stays: an `if` around two closures, since the check takes no const parameter inside a closure.
    if DIRECTED {
        prepare_by(begun, |j, k| begun.both_counts(j, k), scratch)
    } else {
        prepare_by(begun, |j, k| begun.forward_count(j, k), scratch)
    }
}
