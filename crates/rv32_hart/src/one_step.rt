// One step of a hart.
ghost use Rattle.std.specs.Prelude.{◌≡◌, ◌<◌, IfSome, None, Ok, length};
ghost use Rattle.rv32_hart.specs.Effect.{IsOwnStep, KeepsPages, LeavesUnlessNext, effect, is_own};
ghost use Rattle.rv32_hart.specs.Effect.{machine, outcome, stepped};
ghost use Rattle.rv32_hart.specs.KeptInstructions.{instr_at};

use crate::Memory;
use crate::arithmetic::{alu_of, plain_op};
use crate::effects::{
    amo, branch, give, jump, load, load_reserved, moved_by, store, store_conditional,
};
use crate::hart_state::HartState;
use crate::reservations::Reservations;
use crate::step_end::StepEnd;
use base::{Cause, Hart};
use rv32_decode::Instr;

/// One step of a hart: the instruction at its pc is fetched, decoded and has its effect.
///
/// `Next` is the effect, with the one access that the instruction made, if it made one. `Call`
/// comes exactly at ECALL. `Trap` states the first cause that there is: FetchOutside where no
/// instruction can be fetched at the pc, Illegal where the word is none, Breakpoint at EBREAK,
/// FetchMisaligned where a taken jump's target is no multiple of 4, and the fault of the access,
/// where memory refuses it. At a call and at a trap all stays as it was, the pc included.
#[inline(always)]
#[tactic(auto, using(crate::proofs::StepKeeps::kept))]
pub fn step(
    hart: Hart,
    state: &mut HartState,
    memory: &mut Memory,
    held: &mut Reservations,
) -> StepEnd
    requires { hart < length held.old }
    ensures effect { outcome result (machine state.new memory.new held.new) ≡ stepped hart
        (machine state.old memory.old held.old) }

    // All stays at a call and at a trap.
    ensures left { LeavesUnlessNext (machine state.old memory.old held.old) result
        (machine state.new memory.new held.new) }

    // No instruction changes how many harts or bytes there are, or the rights of a page.
    ensures harts { length held.new ≡ length held.old }
    ensures pages { KeepsPages memory.old memory.new }
{
    run_step(hart, state, memory, held)
}

#[inline(always)]
#[tactic(auto, unfolding(crate::specs::Effect::stepped))]
fn run_step(
    hart: Hart,
    state: &mut HartState,
    memory: &mut Memory,
    held: &mut Reservations,
) -> StepEnd
    requires { hart < length held.old }
    ensures { outcome result (machine state.new memory.new held.new) ≡ stepped hart
        (machine state.old memory.old held.old) }
{
    match memory.instr_at(state.pc()) {
        Ok(instr) => act(hart, instr, state, memory, held),
        Err(cause) => StepEnd::Trap(cause),
    }
}

// Whether an instruction is for its hart's registers alone.
#[inline(always)]
fn is_own(instr: &Instr) -> bool
    ensures { result ≡ is_own instr.now }
{
    match instr {
        Instr::Load { .. }
        | Instr::Store { .. }
        | Instr::Ecall
        | Instr::Ebreak
        | Instr::Lr { .. }
        | Instr::Sc { .. }
        | Instr::Amo { .. } => false,
        _ => true,
    }
}

/// The step of a hart whose instruction is for its registers alone, as those of arithmetic, jumps
/// and branches are: the instruction, which is made.
///
/// None where it is another one, where it would trap, or where there is none at the pc. All is as
/// it was then.
#[inline(always)]
pub fn own_step(
    hart: Hart,
    state: &mut HartState,
    memory: &mut Memory,
    held: &mut Reservations,
) -> Option<Instr>
    requires { hart < length held.old }
    ensures made { IfSome result
        (λ instr. IsOwnStep hart memory.old held.old state.old instr state.new) }
    ensures left { result ≡ None → state.new ≡ state.old }
    // No such instruction changes the memory or a reservation.
    ensures memory { memory.new ≡ memory.old }
    ensures held { held.new ≡ held.old }
{
    match memory.instr_at(state.pc()) {
        Ok(instr) => own_act(hart, instr, state, memory, held),
        Err(_) => None,
    }
}

// The same of the instruction that is there.
#[inline(always)]
fn own_act(
    hart: Hart,
    instr: Instr,
    state: &mut HartState,
    memory: &mut Memory,
    held: &mut Reservations,
) -> Option<Instr>
    requires there { hart < length held.old }
    requires read { Ok instr ≡ instr_at memory.old state.old.pc }
    ensures made { IfSome result
        (λ instr. IsOwnStep hart memory.old held.old state.old instr state.new) }
    ensures left { result ≡ None → state.new ≡ state.old }
    ensures memory { memory.new ≡ memory.old }
    ensures held { held.new ≡ held.old }
{
    if !is_own(&instr) {
        return None;
    }
    match act(hart, instr, state, memory, held) {
        StepEnd::Next(made, _access) => Some(made),
        StepEnd::Call | StepEnd::Trap(_) => None,
    }
}

#[inline(always)]
fn act(
    hart: Hart,
    instr: Instr,
    state: &mut HartState,
    memory: &mut Memory,
    held: &mut Reservations,
) -> StepEnd
    requires { hart < length held.old }
    ensures { outcome result (machine state.new memory.new held.new) ≡ effect hart instr
        (machine state.old memory.old held.old) }
{
    match instr {
        Instr::Lui { rd, imm } => give(instr, rd, imm, state),
        Instr::Auipc { rd, imm } => give(instr, rd, state.pc().wrapping_add(imm), state),
        Instr::Jal { rd, offset } => jump(instr, rd, moved_by(state.pc(), offset), state),
        Instr::Jalr { rd, rs1, offset } => {
            jump(instr, rd, moved_by(state.reg(rs1), offset) / 2 * 2, state)
        }
        Instr::Branch {
            test,
            rs1,
            rs2,
            offset,
        } => branch(instr, test, rs1, rs2, offset, state),
        Instr::Load {
            kind,
            rd,
            rs1,
            offset,
        } => load(hart, instr, kind, rd, rs1, offset, state, memory),
        Instr::Store {
            kind,
            rs1,
            rs2,
            offset,
        } => store(hart, instr, kind, rs1, rs2, offset, state, memory, held),
        Instr::Imm { op, rd, rs1, value } => give(
            instr,
            rd,
            alu_of(plain_op(op), state.reg(rs1), value.cast_unsigned()),
            state,
        ),
        Instr::Op { op, rd, rs1, rs2 } => give(
            instr,
            rd,
            alu_of(op, state.reg(rs1), state.reg(rs2)),
            state,
        ),
        Instr::Fence { .. } => {
            state.advance();
            StepEnd::Next(instr, None)
        }
        Instr::Ecall => StepEnd::Call,
        Instr::Ebreak => StepEnd::Trap(Cause::Breakpoint),
        Instr::Lr { rd, rs1, .. } => load_reserved(hart, instr, rd, rs1, state, memory, held),
        Instr::Sc { rd, rs1, rs2, .. } => {
            store_conditional(hart, instr, rd, rs1, rs2, state, memory, held)
        }
        Instr::Amo {
            op,
            rd,
            rs1,
            rs2,
            ..
        } => amo(hart, instr, op, rd, rs1, rs2, state, memory, held),
    }
}
