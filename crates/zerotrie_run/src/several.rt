//! Runs of a command for several files.

ghost use Rattle.std.specs.Prelude.{◌≡◌, List};
ghost use Rattle.zerotrie_run.specs.Statuses.{AreRuns, ends_all, worse, worst_of};
ghost use Rattle.zerotrie_run.specs.declared.status.Status.{Status};
ghost use Rattle.zerotrie_run.specs.declared.status.Status.TheVariants.{Done};

use crate::status::Status;

/// Returns whether nothing is run for another file if the worst status so far is this.
fn ends_all(status: Status) -> bool
    ensures { result ≡ ends_all status }
{
    status == Status::BadUsage || status == Status::Closed
}

/// Returns the status with the greater number; if both have the same, the first.
fn worse(status: Status, next: Status) -> Status
    ensures { result ≡ worse status next }
{
    if next.number() > status.number() {
        next
    } else {
        status
    }
}

/// Runs a command for files one after the other, each by its number, and returns how it ends: as the
/// worst of these runs does. Words that are wrong are told once, and after the output is closed nothing is
/// run.
pub fn run_each<F: Fn(usize) -> Status>(files: usize, run: F) -> Status
    requires { F.IsAlwaysCallable run }
    ensures { (statuses : List Status) × AreRuns (F.post run) files statuses
        × (result ≡ worst_of Done statuses) }
{
    let mut worst = Status::Done;
    for file in 0..files {
        worst = worse(worst, run(file));
        if ends_all(worst) {
            return worst;
        }
    }
    worst
}
