// The operands of an instruction as the listing shows them, each after a space. Each function states how much it can add to the line, so
// that the line never overflows.

ghost use Rattle.std.specs.Prelude.{◌≡◌, ◌+◌, ◌≤◌, ◌++◌, length, codes};
ghost use Rattle.ti_watch.specs.Lines.{line_room};
ghost use Rattle.ti_code.specs.CodeText as text;

use crate::instr::{Instr, Operation, ValueMember};
use ti_base::{CollKind, Place, Zero};
use ti_watch::{Line, collective_name};

// Appends a number.
fn add_number(line: &mut Line, number: u32)
    requires { length line.old + 11 ≤ line_room }
    ensures text { line.new ≡ line.old ++ text.number_part number }
    ensures bound { length line.new ≤ length line.old + 11 }
{
    line.labelled_number(b" ", number);
}

// Appends a place.
fn add_place(line: &mut Line, place: Place)
    requires { length line.old + 22 ≤ line_room }
    ensures text { line.new ≡ line.old ++ text.place_part place }
    ensures bound { length line.new ≤ length line.old + 22 }
{
    line.labelled_number(b" ", place.line);
    line.labelled_number(b":", place.col);
}

// Appends a number and a place.
fn add_number_and_place(line: &mut Line, number: u32, place: Place)
    requires { length line.old + 33 ≤ line_room }
    ensures text { line.new ≡ line.old ++ (text.number_part number ++ text.place_part place) }
    ensures bound { length line.new ≤ length line.old + 33 }
{
    add_number(line, number);
    add_place(line, place);
}

// Appends two numbers.
fn add_numbers(line: &mut Line, first: u32, second: u32)
    requires { length line.old + 22 ≤ line_room }
    ensures text { line.new ≡ line.old ++ (text.number_part first ++ text.number_part second) }
    ensures bound { length line.new ≤ length line.old + 22 }
{
    add_number(line, first);
    add_number(line, second);
}

// Appends the place of an operator, if the listing shows it: of `/`, `%` and the union of domains, which can fault.
fn add_operation(line: &mut Line, operation: Operation, place: Place)
    requires { length line.old + 22 ≤ line_room }
    ensures text { line.new ≡ line.old ++ text.operation_part operation place }
    ensures bound { length line.new ≤ length line.old + 22 }
{
    match operation {
        Operation::Div => add_place(line, place),
        Operation::Rem => add_place(line, place),
        Operation::DomUnion => add_place(line, place),
        Operation::Add
        | Operation::Sub
        | Operation::Mul
        | Operation::Shl
        | Operation::Shr
        | Operation::Ushr
        | Operation::And
        | Operation::Or
        | Operation::Xor
        | Operation::Eq
        | Operation::Ne
        | Operation::Lt
        | Operation::Le
        | Operation::Gt
        | Operation::Ge
        | Operation::PtAdd
        | Operation::PtSub
        | Operation::RectMeet
        | Operation::DomMinus
        | Operation::DomMeet
        | Operation::AndThen
        | Operation::OrElse => {}
    }
}

// Appends the place of a member, if the listing shows it: of each but `contains`.
fn add_member(line: &mut Line, member: ValueMember, place: Place)
    requires { length line.old + 22 ≤ line_room }
    ensures text { line.new ≡ line.old ++ text.member_part member place }
    ensures bound { length line.new ≤ length line.old + 22 }
{
    match member {
        ValueMember::Contains => {}
        ValueMember::Size
        | ValueMember::Min
        | ValueMember::Max
        | ValueMember::DomainOf
        | ValueMember::Restrict
        | ValueMember::Translate
        | ValueMember::Slice => add_place(line, place),
    }
}

// Appends a boolean.
fn add_bool(line: &mut Line, value: bool)
    requires { length line.old + 6 ≤ line_room }
    ensures text { line.new ≡ line.old ++ codes " " ++ text.bool_text value }
    ensures bound { length line.new ≤ length line.old + 6 }
{
    if value {
        line.text(b" true");
    } else {
        line.text(b" false");
    }
}

// Appends the operands of a print: the number of its literal, whether it prints a value, and its place.
fn add_print(line: &mut Line, literal: Option<u32>, value: bool, place: Place)
    requires { length line.old + 40 ≤ line_room }
    ensures text { line.new ≡ line.old ++ text.print_part literal value place }
    ensures bound { length line.new ≤ length line.old + 40 }
{
    line.optional(b"s", literal);
    add_bool(line, value);
    add_place(line, place);
}

// Appends the initial value of the elements of a new grid, and the place.
fn add_zero(line: &mut Line, zero: Zero, place: Place)
    requires { length line.old + 31 ≤ line_room }
    ensures text { line.new ≡ line.old ++ text.operands_text (Instr.NewGrid zero place) }
    ensures bound { length line.new ≤ length line.old + 31 }
{
    line.text(b" ");
    line.zero(zero);
    add_place(line, place);
}

// Appends the name of a collective, and the place.
fn add_collective(line: &mut Line, kind: CollKind, place: Place)
    requires { length line.old + 35 ≤ line_room }
    ensures text { line.new ≡ line.old ++ text.operands_text (Instr.Arrive kind place) }
    ensures bound { length line.new ≤ length line.old + 35 }
{
    line.text(b" ");
    line.text(collective_name(kind));
    add_place(line, place);
}

/// Appends the operands of an instruction as the listing shows them.
pub fn add_operands(line: &mut Line, instr: &Instr)
    requires { length line.old + 107 ≤ line_room }
    ensures text { line.new ≡ line.old ++ text.operands_text instr.now }
    ensures bound { length line.new ≤ length line.old + 107 }
{
    match instr {
        Instr::Const(value) => line.operand(*value),
        Instr::EmptyDom(dim) => add_number(line, u32::from(*dim)),
        Instr::Load(k) => add_number(line, *k),
        Instr::Keep(k) => add_number(line, *k),
        Instr::Trim(k) => add_number(line, *k),
        Instr::Operate(operation, place) => add_operation(line, *operation, *place),
        Instr::MakePt(n) => add_number(line, *n),
        Instr::Coord(_, place) => add_place(line, *place),
        Instr::MakeRect(n, place) => add_number_and_place(line, *n, *place),
        Instr::RectOfPts(place) => add_place(line, *place),
        Instr::ToDom(place) => add_place(line, *place),
        Instr::Member(member, _, place) => add_member(line, *member, *place),
        Instr::CastLocal(place) => add_place(line, *place),
        Instr::Jump(target) => add_number(line, *target),
        Instr::JumpIf(target) => add_number(line, *target),
        Instr::JumpIfNot(target) => add_number(line, *target),
        Instr::Next(k, target) => add_numbers(line, *k, *target),
        Instr::Tick(place) => add_place(line, *place),
        Instr::GetField(field, place) => add_number_and_place(line, *field, *place),
        Instr::PutField(field, place) => add_number_and_place(line, *field, *place),
        Instr::GetElem(place) => add_place(line, *place),
        Instr::PutElem(place) => add_place(line, *place),
        Instr::NewObj(class, place) => add_number_and_place(line, *class, *place),
        Instr::NewGrid(zero, place) => add_zero(line, *zero, *place),
        Instr::Print(literal, value, place) => add_print(line, *literal, *value, *place),
        Instr::RootTest(place) => add_place(line, *place),
        Instr::GridTest(place) => add_place(line, *place),
        Instr::Arrive(kind, place) => add_collective(line, *kind, *place),
        Instr::Depart(place) => add_place(line, *place),
        Instr::Take(place) => add_place(line, *place),
        Instr::Call(k, place) => add_number_and_place(line, *k, *place),
        Instr::Stop(place) => add_place(line, *place),
        Instr::Pop => {}
        Instr::Dup => {}
        Instr::ThisProc => {}
        Instr::NumProcs => {}
        Instr::Alone(_) => {}
        Instr::Widen => {}
        Instr::Narrow => {}
        Instr::AsObj => {}
        Instr::AsGrid => {}
        Instr::Step => {}
        Instr::Common => {}
        Instr::Return => {}
        Instr::ReturnValue => {}
    }
}
