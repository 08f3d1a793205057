// The marks of the work table.
ghost use Rattle.std.specs.Prelude.{◌≤◌, length};
ghost use Rattle.rules.specs.Alone.{Unmarked};

// No node stays marked; the links beside the marks do stay.
pub fn clear_marks(work: &mut [u32])
    requires { 16384 ≤ length work.old }
    ensures { Unmarked work.old work.new 16384 }
{
    for word in &mut work[12288..16384] {
        *word = 2 * (*word / 2);
    }
}
