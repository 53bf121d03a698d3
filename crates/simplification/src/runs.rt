// Runs in tables.
ghost use Rattle.std.specs.Prelude.{◌≡◌, ◌+◌, ◌^◌, ◌<◌, ◌≤◌, length};
ghost use Rattle.std.specs.List.{AllByRecursion};
ghost use Rattle.formulas.specs.Lines.{entries};
ghost use Rattle.simplification.specs.Moving.{Moved};

use formulas::node::Run;

// Moves what is left of each entry of a run down to `start`, and says where that ends.
pub(crate) fn move_run<T: Copy, F: Fn(T) -> Option<T>>(
    table: &mut [T],
    run: Run,
    start: u32,
    left: F,
) -> u32
    requires past { start ≤ run.first }
    requires within { run.first + run.count ≤ length table.old }
    requires small { length table.old < 2 ^ 32 }
    requires callable { AllByRecursion (F.pre left) (entries table.old run) }
    ensures { Moved (F.post left) (entries table.old run) start table.old result table.new }
{
    let first = run.first as usize;
    let mut end = start;
    // By index: the table that is read is the one that is written.
    for k in first..first + run.count as usize {
        if let Some(entry) = left(table[k]) {
            table[end as usize] = entry;
            end += 1;
        }
    }
    end
}
