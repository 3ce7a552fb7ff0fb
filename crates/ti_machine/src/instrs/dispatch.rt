// The dispatch of all instructions that stay in their frame.

ghost use Rattle.std.specs.Prelude.{◌≡◌, ◌+◌, ℕ, List, Option, true};
ghost use Rattle.ti_code.specs.Forms.{IsFormedInstr};
ghost use Rattle.ti_machine.specs.Mirrors.FrameStates.{local_state_of, who, InstrOutcome};
ghost use Rattle.ti_machine.specs.Mirrors.Instrs.{stays};

use crate::frame::state::FrameState;
use std::alloc::Global;
use ti_code::Instr;
use ti_eval::{Interrupt, Rank};

impl FrameState {
    /// Executes an instruction that stays in its frame. `next` is the position after it.
    pub(crate) fn perform(
        &mut self,
        alloc: Global,
        team: Rank,
        instr: &Instr,
        next: usize,
    ) -> Result<(), Interrupt>
        requires next { next ≡ self.old.at + 1 }
        requires form { IsFormedInstr instr.now }
        requires stays { stays instr.now ≡ true }
        ensures { (receivers : List (Option ℕ)) → InstrOutcome (who team receivers) instr.now result (local_state_of self.old) (local_state_of self.new) }
    {
        match instr {
            Instr::Const(value) => self.constant(*value, next),
            Instr::EmptyDom(dim) => self.empty_domain(alloc, *dim, next),
            Instr::Pop => self.drop_one(next),
            Instr::Dup => self.double(alloc, next),
            Instr::Load(k) => self.load(alloc, *k, next),
            Instr::Keep(k) => self.keep(*k, next),
            Instr::Trim(k) => self.trim(*k, next),
            Instr::ThisProc => self.this_proc(team, next),
            Instr::NumProcs => self.num_procs(team, next),
            Instr::Operate(o, at) => self.operate(alloc, *o, *at, next),
            Instr::Alone(o) => self.operate_unary(*o, next),
            Instr::Widen => self.widen(next),
            Instr::Narrow => self.narrow(next),
            Instr::AsObj => self.as_object(next),
            Instr::AsGrid => self.as_grid(next),
            Instr::MakePt(n) => self.make_point(alloc, *n, next),
            Instr::Coord(n, at) => self.coordinate(alloc, *n, *at, next),
            Instr::Step => self.step(next),
            Instr::MakeRect(n, at) => self.make_rect(alloc, *n, *at, next),
            Instr::RectOfPts(at) => self.make_rect(alloc, 1, *at, next),
            Instr::Common => self.meet(alloc, next),
            Instr::ToDom(at) => self.as_domain(alloc, *at, next),
            Instr::Member(k, n, at) => self.member(alloc, *k, *n, *at, next),
            Instr::CastLocal(at) => self.cast_local(team, *at, next),
            Instr::Jump(target) => self.jump(*target),
            Instr::JumpIf(target) => self.jump_if(*target, next),
            Instr::JumpIfNot(target) => self.jump_if_not(*target, next),
            Instr::Next(k, target) => self.next_point(*k, *target, next),
            Instr::GetField(field, at) => self.get_field(*field, *at, next),
            Instr::PutField(field, at) => self.put_field(*field, *at, next),
            Instr::GetElem(at) => self.get_element(*at, next),
            Instr::PutElem(at) => self.put_element(*at, next),
            Instr::NewObj(class, at) => self.new_object(*class, *at, next),
            Instr::NewGrid(zero, at) => self.new_grid(*zero, *at, next),
            Instr::Print(literal, valued, at) => self.print(*literal, *valued, *at, next),
            Instr::RootTest(at) => self.root_test(team, *at, next),
            Instr::GridTest(at) => self.grid_test(team, *at, next),
            Instr::Take(at) => self.take(*at, next),
            Instr::Tick(_) => unreachable!(),
            Instr::Call(_, _) => unreachable!(),
            Instr::Return => unreachable!(),
            Instr::ReturnValue => unreachable!(),
            Instr::Stop(_) => unreachable!(),
            Instr::Arrive(_, _) => unreachable!(),
            Instr::Depart(_) => unreachable!(),
        }
    }
}
