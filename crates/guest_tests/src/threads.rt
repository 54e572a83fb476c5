// A short life of three harts: the calls that take memory, and the phases that each call leaves.
ghost use Rattle.std.specs.Prelude.{◌≡◌};
ghost use Rattle.guest.specs.Phases.{first_phases};

use base::Hart;
use guest::{JoinEnd, Threads};
use std::process::Abort;
use std::test::Fail;

// Which harts can run, and which one alone.
fn see(rt: &impl Abort, threads: &Threads, runnable: [bool; 3], lone: Option<Hart>) {
    assert!(rt; threads.runnable() == runnable.as_slice());
    assert!(rt; threads.lone() == lone);
}

// Hart 0 makes a hart and joins it, this one waits, is woken and ends, and then hart 0 ends.
fn live(rt: &impl Abort, threads: &mut Threads)
    requires { threads.old ≡ first_phases 3 }
{
    let main = Hart::new(0).expect(rt, "hart 0");
    see(rt, threads, [true, false, false], Some(main));
    let worker = threads.spawn().expect(rt, "a free hart");
    assert!(rt; worker.number() == 1);
    see(rt, threads, [true, true, false], None);
    assert!(rt; threads.join(main, 1) == JoinEnd::Waits);
    see(rt, threads, [false, true, false], Some(worker));
    threads.wait(worker, 64);
    see(rt, threads, [false, false, false], None);
    assert!(rt; threads.wake(64, 5) == 1);
    assert!(rt; threads.exit(worker, 7) == Some(main));
    assert!(rt; threads.finished().is_none());
    assert!(rt; threads.exit(main, 3).is_none());
    assert!(rt; threads.finished() == Some(3));
}

#[test]
fn a_hart_is_joined_woken_and_ends(rt: HostRuntime) -> Result<(), Fail> {
    let mut threads = Threads::new(rt.alloc(), 3)?;
    live(&rt, &mut threads);
    Ok(())
}
