// The work table after a call.
ghost use Rattle.std.specs.Prelude.{◌≡◌, ◌≤◌, length};
ghost use Rattle.answers.specs.Entry.{work_after};
ghost use Rattle.opening.specs.Opening.{Bounded};

use strings::rows::after_at;

// Zeros in the first 16,384 words; a smaller table is as it was.
pub fn clear(work: &mut [u32])
    ensures { work.new ≡ work_after work.old }
{
    if work.len() < 16384 {
        return;
    }
    work[..16384].fill(0);
}

// The same of a table whose rows are zero behind the last node: they need not be written.
pub fn clear_rows(work: &mut [u32])
    requires { (16384 ≤ length work.old) × Bounded work.old }
    ensures { work.new ≡ work_after work.old }
{
    let count = after_at(work, 0);
    work[..3 * count].fill(0);
    work[12288..16384].fill(0);
}
