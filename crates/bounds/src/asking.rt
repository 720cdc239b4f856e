// Whether a bound can answer.
ghost use Rattle.bounds.specs.Beginnings.{answerable, later_setting};
ghost use Rattle.std.specs.Prelude.{◌≡◌};

use tables::modules::Modules;
use tables::sheet::ENTRIES;

/// How many charges the scratch of a bound holds at least.
pub const SCRATCH: usize = 192;

/// Whether the first `len` settings of `path` are a beginning, the sheet is whole, and the scratch has room.
pub fn can_answer(modules: &Modules, sheet: &[u16], path: [u8; 20], len: usize, room: usize) -> bool
    ensures { result ≡ answerable modules.now sheet.now path len room }
{
    if sheet.len() < ENTRIES || room < SCRATCH || len == 0 || len > modules.count() {
        return false;
    }
    (0..len).all(|i| modules.allows(i, path[i]))
}

/// Whether `k` is an allowed setting of module `j`, which comes after the first `len` modules.
pub fn is_later_setting(modules: &Modules, len: usize, j: usize, k: u8) -> bool
    ensures { result ≡ later_setting modules.now len j k }
{
    len <= j && j < modules.count() && modules.allows(j, k)
}
