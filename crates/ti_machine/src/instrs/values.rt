// The instructions that compute a value from operands, by the functions of ti_eval that the tree interpreter uses, too.

ghost use Rattle.std.specs.Prelude.{◌≡◌, ◌+◌, ◌^◌, ◌<◌, ℕ, List, [], ◌∷◌, Option};
ghost use Rattle.ti_lang.specs.Meaning.Held.{Held as Seen};
ghost use Rattle.ti_lang.specs.Meaning.Comp.{Comp};
ghost use Rattle.ti_lang.specs.Typing.TyRef.{built_in_of};
ghost use Rattle.ti_eval.specs.Comes.{Comes};
ghost use Rattle.ti_code.specs.Effects.{LocalState, Who, binary_operator_of, unary_operator_of, built_in_member, push_result};
ghost use Rattle.ti_code.specs.declared.instr.Instr.TheVariants as i;
ghost use Rattle.ti_machine.specs.declared.frame.state.AnswerUse.TheVariants.{Push};
ghost use Rattle.ti_machine.specs.Mirrors.FrameStates.{local_state_of, who, ValueOutcome, FrameOutcome, InstrOutcome};
ghost use Rattle.ti_machine.specs.Requests.{RequestsAtMostOnce};

use crate::frame::state::FrameState;
use crate::instrs::domains::{bounds, intersection, numbers_of};
use std::alloc::Global;
use ti_base::{FaultKind, Place, Value};
use ti_code::{OneOperand, Operation, ValueMember};
use ti_eval::{
    CanonicalAnswer, Interrupt, Rank, VarValue, apply_binary, apply_unary, as_int, as_long,
    check_local, index_value, is_rect_of_procs, member, point_of_numbers, rect_of_procs,
    rect_within, to_domain,
};
use ti_lang::program::Ty;
use ti_lang::typing::BuiltIn;
use ti_syntax::tree::{BinaryOperator, UnaryOperator};

/// The operator of the language that a name denotes.
pub(crate) fn operator(operation: Operation) -> BinaryOperator
    ensures { result ≡ binary_operator_of operation }
{
    match operation {
        Operation::Add => BinaryOperator::Add,
        Operation::PtAdd => BinaryOperator::Add,
        Operation::DomUnion => BinaryOperator::Add,
        Operation::Sub => BinaryOperator::Subtract,
        Operation::PtSub => BinaryOperator::Subtract,
        Operation::DomMinus => BinaryOperator::Subtract,
        Operation::Mul => BinaryOperator::Multiply,
        Operation::RectMeet => BinaryOperator::Multiply,
        Operation::DomMeet => BinaryOperator::Multiply,
        Operation::Div => BinaryOperator::Divide,
        Operation::Rem => BinaryOperator::Remainder,
        Operation::Shl => BinaryOperator::ShiftLeft,
        Operation::Shr => BinaryOperator::ShiftRight,
        Operation::Ushr => BinaryOperator::UnsignedShiftRight,
        Operation::And => BinaryOperator::And,
        Operation::Or => BinaryOperator::Or,
        Operation::Xor => BinaryOperator::Xor,
        Operation::Eq => BinaryOperator::Equal,
        Operation::Ne => BinaryOperator::NotEqual,
        Operation::Lt => BinaryOperator::Less,
        Operation::Le => BinaryOperator::LessEqual,
        Operation::Gt => BinaryOperator::Greater,
        Operation::Ge => BinaryOperator::GreaterEqual,
        Operation::AndThen => BinaryOperator::AndThen,
        Operation::OrElse => BinaryOperator::OrElse,
    }
}

fn unary_operator(operation: OneOperand) -> UnaryOperator
    ensures { result ≡ unary_operator_of operation }
{
    match operation {
        OneOperand::Neg => UnaryOperator::Minus,
        OneOperand::Com => UnaryOperator::Complement,
        OneOperand::Not => UnaryOperator::Not,
    }
}

fn built_in(member: ValueMember) -> BuiltIn
    ensures { built_in_of result ≡ built_in_member member }
{
    match member {
        ValueMember::Size => BuiltIn::Size,
        ValueMember::Min => BuiltIn::Min,
        ValueMember::Max => BuiltIn::Max,
        ValueMember::Contains => BuiltIn::Contains,
        ValueMember::DomainOf => BuiltIn::Domain,
        ValueMember::Restrict => BuiltIn::Restrict,
        ValueMember::Translate => BuiltIn::Translate,
        ValueMember::Slice => BuiltIn::Slice,
    }
}

/// The result of a computation without its list of answers.
pub(crate) fn value_of<'a>(
    got: Result<(VarValue, &'a [CanonicalAnswer]), Interrupt>,
) -> Result<VarValue, Interrupt>
    ensures { (m : Comp Seen) → RequestsAtMostOnce m → Comes got.entry (m []) → ValueOutcome result m }
{
    match got {
        Ok((h, _)) => Ok(h),
        Err(stop) => Err(stop),
    }
}

impl FrameState {
    /// Pushes the value of a computation. If it is interrupted by an action, the answer will be pushed.
    pub(crate) fn push_result(
        &mut self,
        got: Result<VarValue, Interrupt>,
        next: usize,
    ) -> Result<(), Interrupt>
        ensures { (s : LocalState) (st : List Seen) (m : Comp Seen)
            → local_state_of self.old ≡ record s { stack = st } → next ≡ s.at + 1 → ValueOutcome got m
            → FrameOutcome result Push (push_result s st m) (local_state_of self.new) }
    {
        self.at = next;
        let h = got?;
        self.push(h)?;
        Ok(())
    }

    /// Applies a binary operator.
    pub(crate) fn operate(
        &mut self,
        alloc: Global,
        operation: Operation,
        place: Place,
        next: usize,
    ) -> Result<(), Interrupt>
        requires next { next ≡ self.old.at + 1 }
        ensures { (w : Who) → InstrOutcome w (i.Operate operation place) result (local_state_of self.old) (local_state_of self.new) }
    {
        let (x, y) = self.pop_two()?;
        let got = value_of(apply_binary(alloc, place, operator(operation), &x, y, &[]));
        self.push_result(got, next)
    }

    /// Applies a unary operator.
    pub(crate) fn operate_unary(
        &mut self,
        operation: OneOperand,
        next: usize,
    ) -> Result<(), Interrupt>
        requires next { next ≡ self.old.at + 1 }
        ensures { (w : Who) → InstrOutcome w (i.Alone operation) result (local_state_of self.old) (local_state_of self.new) }
    {
        let h = self.pop()?;
        self.push(apply_unary(unary_operator(operation), h))?;
        self.at = next;
        Ok(())
    }

    /// Converts an int to a long.
    pub(crate) fn widen(&mut self, next: usize) -> Result<(), Interrupt>
        requires next { next ≡ self.old.at + 1 }
        ensures { (w : Who) → InstrOutcome w i.Widen result (local_state_of self.old) (local_state_of self.new) }
    {
        let h = self.pop()?;
        self.push(as_long(h))?;
        self.at = next;
        Ok(())
    }

    /// Converts a long to an int.
    pub(crate) fn narrow(&mut self, next: usize) -> Result<(), Interrupt>
        requires next { next ≡ self.old.at + 1 }
        ensures { (w : Who) → InstrOutcome w i.Narrow result (local_state_of self.old) (local_state_of self.new) }
    {
        let h = self.pop()?;
        self.push(as_int(h))?;
        self.at = next;
        Ok(())
    }

    /// Makes `null` a reference to an object.
    pub(crate) fn as_object(&mut self, next: usize) -> Result<(), Interrupt>
        requires next { next ≡ self.old.at + 1 }
        ensures { (w : Who) → InstrOutcome w i.AsObj result (local_state_of self.old) (local_state_of self.new) }
    {
        let h = self.pop()?;
        self.push(VarValue::plain(Value::Obj(h.thing())))?;
        self.at = next;
        Ok(())
    }

    /// Makes `null` a reference to a grid.
    pub(crate) fn as_grid(&mut self, next: usize) -> Result<(), Interrupt>
        requires next { next ≡ self.old.at + 1 }
        ensures { (w : Who) → InstrOutcome w i.AsGrid result (local_state_of self.old) (local_state_of self.new) }
    {
        let h = self.pop()?;
        self.push(VarValue::plain(Value::Grid(h.thing())))?;
        self.at = next;
        Ok(())
    }

    /// Pushes the point of the `count` top operands as coordinates.
    pub(crate) fn make_point(
        &mut self,
        alloc: Global,
        count: u32,
        next: usize,
    ) -> Result<(), Interrupt>
        requires next { next ≡ self.old.at + 1 }
        ensures { (w : Who) → InstrOutcome w (i.MakePt count) result (local_state_of self.old) (local_state_of self.new) }
    {
        let args = self.take_args(alloc, u64::from(count))?;
        let numbers = numbers_of(alloc, &args)?;
        self.push(VarValue::plain(Value::Pt(point_of_numbers(&numbers))))?;
        self.at = next;
        Ok(())
    }

    /// Pushes a coordinate of a point by the `count` top operands as indices.
    pub(crate) fn coordinate(
        &mut self,
        alloc: Global,
        count: u32,
        place: Place,
        next: usize,
    ) -> Result<(), Interrupt>
        requires next { next ≡ self.old.at + 1 }
        ensures { (w : Who) → InstrOutcome w (i.Coord count place) result (local_state_of self.old) (local_state_of self.new) }
    {
        let args = self.take_args(alloc, u64::from(count))?;
        let h = self.pop()?;
        let numbers = numbers_of(alloc, &args)?;
        let got = value_of(index_value(true, place, &h, &numbers, &[]));
        self.push_result(got, next)
    }

    /// Pushes the default step of a range.
    #[tactic(auto, using(crate::proofs::Reversed::reversed))]
    pub(crate) fn step(&mut self, next: usize) -> Result<(), Interrupt>
        requires next { next ≡ self.old.at + 1 }
        ensures { (w : Who) → InstrOutcome w i.Step result (local_state_of self.old) (local_state_of self.new) }
    {
        let Some(high) = self.stack.pop() else {
            self.push(VarValue::plain(Value::Int(1)))?;
            self.at = next;
            return Ok(());
        };
        let step = match self.stack.last() {
            Some(low) => low.one_step(),
            None => VarValue::plain(Value::Int(1)),
        };
        self.stack.push(high)?;
        self.push(step)?;
        self.at = next;
        Ok(())
    }

    /// Pushes the rectangular domain of the `count` ranges on top.
    pub(crate) fn make_rect(
        &mut self,
        alloc: Global,
        count: u32,
        place: Place,
        next: usize,
    ) -> Result<(), Interrupt>
        requires next { next ≡ self.old.at + 1 }
        ensures { (w : Who) → InstrOutcome w (i.MakeRect count place) result (local_state_of self.old) (local_state_of self.new) }
    {
        let args = self.take_args(alloc, 3 * u64::from(count))?;
        let b = bounds(alloc, &args)?;
        let got = value_of(rect_within(place, &b, &[]));
        self.push_result(got, next)
    }

    /// Pushes the intersection of two rectangular domains.
    pub(crate) fn meet(&mut self, alloc: Global, next: usize) -> Result<(), Interrupt>
        requires next { next ≡ self.old.at + 1 }
        ensures { (w : Who) → InstrOutcome w i.Common result (local_state_of self.old) (local_state_of self.new) }
    {
        let (x, y) = self.pop_two()?;
        let h = intersection(alloc, &x.rect(), &y.rect())?;
        self.push(h)?;
        self.at = next;
        Ok(())
    }

    /// Converts a rectangular domain to a general domain.
    pub(crate) fn as_domain(
        &mut self,
        alloc: Global,
        place: Place,
        next: usize,
    ) -> Result<(), Interrupt>
        requires next { next ≡ self.old.at + 1 }
        ensures { (w : Who) → InstrOutcome w (i.ToDom place) result (local_state_of self.old) (local_state_of self.new) }
    {
        let h = self.pop()?;
        let got = value_of(to_domain(alloc, place, h, &[]));
        self.push_result(got, next)
    }

    /// Evaluates a built-in member.
    pub(crate) fn member(
        &mut self,
        alloc: Global,
        kind: ValueMember,
        count: u32,
        place: Place,
        next: usize,
    ) -> Result<(), Interrupt>
        requires next { next ≡ self.old.at + 1 }
        ensures { (w : Who) → InstrOutcome w (i.Member kind count place) result (local_state_of self.old) (local_state_of self.new) }
    {
        let args = self.take_args(alloc, u64::from(count))?;
        let h = self.pop()?;
        let got = value_of(member(place, Some(built_in(kind)), &h, &args, &[]));
        self.push_result(got, next)
    }

    /// Casts to a local reference: a fault unless it is null or refers to an object of this process.
    pub(crate) fn cast_local(
        &mut self,
        team: Rank,
        place: Place,
        next: usize,
    ) -> Result<(), Interrupt>
        requires next { next ≡ self.old.at + 1 }
        ensures { (receivers : List (Option ℕ)) → InstrOutcome (who team receivers) (i.CastLocal place) result (local_state_of self.old) (local_state_of self.new) }
    {
        let h = self.pop()?;
        let ty = Ty::Class {
            class: 0,
            local: true,
        };
        let got = value_of(check_local(team.number, place, &ty, h, &[]));
        self.push_result(got, next)
    }

    /// Checks that the top operand is the number of a process; otherwise a fault.
    pub(crate) fn root_test(
        &mut self,
        team: Rank,
        place: Place,
        next: usize,
    ) -> Result<(), Interrupt>
        requires next { next ≡ self.old.at + 1 }
        ensures { (receivers : List (Option ℕ)) → InstrOutcome (who team receivers) (i.RootTest place) result (local_state_of self.old) (local_state_of self.new) }
    {
        let n = self.pop()?.integer();
        if n < 0 || n >= i64::from(team.procs) {
            return Err(Interrupt::Fault(FaultKind::BadRoot, place));
        }
        self.push(VarValue::plain(Value::Int(n as i32)))?;
        self.at = next;
        Ok(())
    }

    /// Checks that the top operand is the domain with one point for each process; otherwise a fault.
    pub(crate) fn grid_test(
        &mut self,
        team: Rank,
        place: Place,
        next: usize,
    ) -> Result<(), Interrupt>
        requires next { next ≡ self.old.at + 1 }
        ensures { (receivers : List (Option ℕ)) → InstrOutcome (who team receivers) (i.GridTest place) result (local_state_of self.old) (local_state_of self.new) }
    {
        let h = self.pop()?;
        if !is_rect_of_procs(&h.rect(), team.procs) {
            return Err(Interrupt::Fault(FaultKind::ExchangeDomain, place));
        }
        self.push(VarValue::plain(Value::Rc(rect_of_procs(team.procs))))?;
        self.at = next;
        Ok(())
    }
}
