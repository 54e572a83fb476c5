// A whole run, of which one line's invalidations are noted.
ghost use Rattle.std.specs.Prelude.{◌≡◌, ℕ, ◌+◌, ◌<◌, ◌≤◌, ◌^◌, ◌++◌, [], IfOk, List, OnOk};
ghost use Rattle.std.specs.Prelude.{length, map};
ghost use Rattle.guest.specs.Runs.{rest_of};
ghost use Rattle.guest.specs.SeenTurns.{accesses_in, seen};
ghost use Rattle.rv32_hart.specs.Space.{Space};
ghost use Rattle.sharing_rules.specs.Lines.{Line};
ghost use Rattle.invalidations.specs.LineInvalidations.{kept_of};
ghost use Rattle.invalidations.specs.Text.{explain_text};
ghost use Rattle.invalidations.specs.declared.sited.Sited.{Sited};
ghost use Rattle.invalidations.specs.Watched.{sited_at, sited_run, sited_touch};

use crate::explainer::Explainer;
use crate::text::write_explain;
use base::{Ending, NoMemory};
use guest::{Event, Guest, Touched, Touches, Turn};
use objects::ObjectTable;
use sharing_rules::CacheLine;
use std::alloc::Global;

/// How a run ended, and what is reported of the line.
#[derive(Drop)]
pub struct Explained {
    /// How it ended.
    pub ending: Ending,
    /// The text.
    pub text: Vec<u8>,
}

// Notes what is seen of a step.
fn note_event(explainer: &mut Explainer, event: Event) -> Result<(), NoMemory>
    requires { explainer.old.position < 2 ^ 40 }
    ensures noted { OnOk result ((m : Space) (l : Line) (start : ℕ) (u : List Sited)
        → explainer.old ≡ kept_of l start u
        → explainer.new ≡ kept_of l start (u ++ sited_at (seen m event))) }
    ensures position { OnOk result
        (explainer.new.position ≡ explainer.old.position + accesses_in event) }
{
    match event {
        Event::Touch { access, pc } => explainer.on_access(&access, pc),
        Event::Quiet => Ok(()),
        Event::Alloc { .. } => Ok(()),
        Event::Free { .. } => Ok(()),
        Event::Output { .. } => Ok(()),
    }
}

// Notes accesses, in their order.
fn note_touches(explainer: &mut Explainer, touches: &[Touched]) -> Result<(), NoMemory>
    requires { explainer.old.position + length touches.now ≤ 2 ^ 40 }
    ensures noted { OnOk result ((l : Line) (start : ℕ) (u : List Sited)
        → explainer.old ≡ kept_of l start u
        → explainer.new ≡ kept_of l start (u ++ map sited_touch touches.now)) }
    ensures position { OnOk result
        (explainer.new.position ≡ explainer.old.position + length touches.now) }
{
    for place in 0..touches.len() {
        let touched = touches[place];
        match explainer.on_access(&touched.access, touched.pc) {
            Ok(()) => {}
            Err(fault) => return Err(fault),
        }
    }
    Ok(())
}

// Notes accesses, and then what is seen of a step behind them.
fn note_turn(explainer: &mut Explainer, touches: &[Touched], event: Event) -> Result<(), NoMemory>
    requires { explainer.old.position + length touches.now < 2 ^ 40 }
    ensures noted { OnOk result ((m : Space) (l : Line) (start : ℕ) (u : List Sited)
        → explainer.old ≡ kept_of l start u → explainer.new ≡ kept_of l start
        (u ++ (map sited_touch touches.now ++ sited_at (seen m event)))) }
    ensures position { OnOk result (explainer.new.position
        ≡ explainer.old.position + length touches.now + accesses_in event) }
{
    match note_touches(explainer, touches) {
        Ok(()) => note_event(explainer, event),
        Err(fault) => Err(fault),
    }
}

// Runs a guest to its end, and notes each step of which something is seen. What the guest puts by
// is of the steps before the last.
fn follow(
    guest: &mut Guest,
    explainer: &mut Explainer,
    touches: &mut Touches,
) -> Result<Ending, NoMemory>
    requires budget { guest.old.setup.budget ≤ 2 ^ 36 }
    requires fresh { explainer.old.position ≡ 0 }
    ensures ending { IfOk result (λ ending. ending ≡ (rest_of guest.old).ending) }
    ensures noted { OnOk result ((l : Line) (start : ℕ) → explainer.old ≡ kept_of l start []
        → explainer.new ≡ kept_of l start (sited_run (rest_of guest.old))) }
{
    'turns: loop {
        // (no run makes so many steps)
        match guest.run_on(u64::MAX, touches) {
            Ok(Turn::Ran(event)) => match note_turn(explainer, touches.all(), event) {
                Ok(()) => {}
                Err(fault) => return Err(fault),
            },
            Ok(Turn::Ended(_)) => {
                return match note_touches(explainer, touches.all()) {
                    Ok(()) => Ok(guest.ending().unwrap()),
                    Err(fault) => Err(fault),
                };
            }
            Err(fault) => return Err(fault),
        }
    }
}

// The same, with room for what the guest puts by.
fn watch_all(
    alloc: Global,
    guest: &mut Guest,
    explainer: &mut Explainer,
) -> Result<Ending, NoMemory>
    requires budget { guest.old.setup.budget ≤ 2 ^ 36 }
    requires fresh { explainer.old.position ≡ 0 }
    ensures ending { IfOk result (λ ending. ending ≡ (rest_of guest.old).ending) }
    ensures noted { OnOk result ((l : Line) (start : ℕ) → explainer.old ≡ kept_of l start []
        → explainer.new ≡ kept_of l start (sited_run (rest_of guest.old))) }
{
    let mut touches = Touches::new(alloc)?;
    follow(guest, explainer, &mut touches)
}

// Runs a guest to its end, and reports what is noted of it. (It owns neither: a function that owns
// both and may fail twice takes minutes to prove.)
fn watch_to_end(
    alloc: Global,
    guest: &mut Guest,
    explainer: &mut Explainer,
    objects: &ObjectTable,
) -> Result<Explained, NoMemory>
    requires budget { guest.old.setup.budget ≤ 2 ^ 36 }
    requires fresh { explainer.old.position ≡ 0 }
    ensures ending { IfOk result (λ explained. explained.ending ≡ (rest_of guest.old).ending) }
    ensures text { IfOk result (λ explained. (l : Line) (start : ℕ)
        → explainer.old ≡ kept_of l start [] → explained.text.items
        ≡ explain_text (rest_of guest.old).ending objects.now.symbols l start
        (sited_run (rest_of guest.old))) }
{
    let ending = watch_all(alloc, guest, explainer)?;
    let text = write_explain(alloc, &ending, objects, explainer)?;
    Ok(Explained { ending, text })
}

/// Runs a guest to its end, and reports the invalidations of a line above a start, with the
/// functions of a program. The guest has a budget of at most 2^36.
///
/// NoMemory comes where there is no memory for the guest, for what is noted, or for the text.
pub fn explain_run(
    alloc: Global,
    mut guest: Guest,
    line: CacheLine,
    start: u64,
    objects: &ObjectTable,
) -> Result<Explained, NoMemory>
    requires { guest.setup.budget ≤ 2 ^ 36 }
    ensures ending { IfOk result (λ explained. explained.ending ≡ (rest_of guest).ending) }
    ensures text { IfOk result (λ explained. explained.text.items
        ≡ explain_text (rest_of guest).ending objects.now.symbols line start
        (sited_run (rest_of guest))) }
{
    let mut explainer = Explainer::new(alloc, line, start);
    watch_to_end(alloc, &mut guest, &mut explainer, objects)
}
