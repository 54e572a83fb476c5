// What no clause says: that reading succeeds, and the choices that follow.
ghost use Rattle.std.specs.Prelude.{◌≡◌};

use base::Hart;
use hart_scheduler::Schedule;
use std::process::Abort;
use std::test::Fail;

fn chosen(schedule: &mut Schedule, runnable: [bool; 3]) -> Option<u16>
    requires { schedule.old.harts ≡ 3 }
    ensures { schedule.new.harts ≡ 3 }
{
    schedule.next(&runnable).map(Hart::number)
}

// Who is chosen where none can run, twice where all can, where the last alone can, and where all
// can again.
fn choices(schedule: &mut Schedule) -> [Option<u16>; 5]
    requires { schedule.old.harts ≡ 3 }
    ensures { schedule.new.harts ≡ 3 }
{
    let all = [true, true, true];
    let none = chosen(schedule, [false, false, false]);
    let first = chosen(schedule, all);
    let second = chosen(schedule, all);
    let alone = chosen(schedule, [false, false, true]);
    [none, first, second, alone, chosen(schedule, all)]
}

// Follows a schedule: first its list, then turns.
fn follow(rt: &impl Abort, schedule: &mut Schedule)
    requires { schedule.old.harts ≡ 3 }
{
    let all = [true, true, true];
    assert!(rt; choices(schedule) == [None, Some(2), Some(1), Some(2), Some(2)]);
    assert!(rt; schedule.peek(&all) == Hart::new(0));
    assert!(rt; chosen(schedule, all) == Some(0));
}

#[test]
fn the_list_comes_first_and_then_turns(rt: HostRuntime) -> Result<(), Fail> {
    let mut schedule = Schedule::read(rt.alloc(), b"2 1\n\n1 4294967295\n0 1", 3, 2, 0)?;
    follow(&rt, &mut schedule);
    Ok(())
}
