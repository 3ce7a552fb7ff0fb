// The names of instructions in the listing.

ghost use Rattle.std.specs.Prelude.{◌≡◌, ◌≤◌, length};
ghost use Rattle.ti_code.specs.CodeText as text;

use crate::instr::{Instr, OneOperand, Operation, ValueMember};

// The name of a binary operator.
fn operation_word(operation: Operation) -> &'static [u8]
    ensures word { result.now ≡ text.operation_word operation }
    ensures short { length result.now ≤ 14 }
{
    match operation {
        Operation::Add => b"add",
        Operation::Sub => b"sub",
        Operation::Mul => b"mul",
        Operation::Div => b"div",
        Operation::Rem => b"rem",
        Operation::Shl => b"shl",
        Operation::Shr => b"shr",
        Operation::Ushr => b"ushr",
        Operation::And => b"and",
        Operation::Or => b"or",
        Operation::Xor => b"xor",
        Operation::Eq => b"eq",
        Operation::Ne => b"ne",
        Operation::Lt => b"lt",
        Operation::Le => b"le",
        Operation::Gt => b"gt",
        Operation::Ge => b"ge",
        Operation::PtAdd => b"ptAdd",
        Operation::PtSub => b"ptSub",
        Operation::RectMeet => b"rectMeet",
        Operation::DomUnion => b"domUnion",
        Operation::DomMinus => b"domMinus",
        Operation::DomMeet => b"domMeet",
        Operation::AndThen => b"andThen",
        Operation::OrElse => b"orElse",
    }
}

// The name of a unary operator.
fn one_word(operator: OneOperand) -> &'static [u8]
    ensures word { result.now ≡ text.unary_word operator }
    ensures short { length result.now ≤ 14 }
{
    match operator {
        OneOperand::Neg => b"neg",
        OneOperand::Com => b"com",
        OneOperand::Not => b"not",
    }
}

// The name of a built-in member.
fn member_word(member: ValueMember) -> &'static [u8]
    ensures word { result.now ≡ text.member_word member }
    ensures short { length result.now ≤ 14 }
{
    match member {
        ValueMember::Size => b"size",
        ValueMember::Min => b"min",
        ValueMember::Max => b"max",
        ValueMember::Contains => b"contains",
        ValueMember::DomainOf => b"domainOf",
        ValueMember::Restrict => b"view restrict",
        ValueMember::Translate => b"view translate",
        ValueMember::Slice => b"view slice",
    }
}

/// The name of an instruction.
pub fn instr_word(instr: &Instr) -> &'static [u8]
    ensures word { result.now ≡ text.instr_name instr.now }
    ensures short { length result.now ≤ 14 }
{
    match instr {
        Instr::Const(_) => b"const",
        Instr::EmptyDom(_) => b"emptyDom",
        Instr::Pop => b"pop",
        Instr::Dup => b"dup",
        Instr::Load(_) => b"load",
        Instr::Keep(_) => b"keep",
        Instr::Trim(_) => b"trim",
        Instr::ThisProc => b"thisProc",
        Instr::NumProcs => b"numProcs",
        Instr::Operate(operation, _) => operation_word(*operation),
        Instr::Alone(operator) => one_word(*operator),
        Instr::Widen => b"widen",
        Instr::Narrow => b"narrow",
        Instr::AsObj => b"asObject",
        Instr::AsGrid => b"asGrid",
        Instr::MakePt(_) => b"makePt",
        Instr::Coord(_, _) => b"coord",
        Instr::Step => b"step",
        Instr::MakeRect(_, _) => b"makeRect",
        Instr::RectOfPts(_) => b"rectOfPts",
        Instr::Common => b"rectMeet",
        Instr::ToDom(_) => b"toDom",
        Instr::Member(member, _, _) => member_word(*member),
        Instr::CastLocal(_) => b"castLocal",
        Instr::Jump(_) => b"jump",
        Instr::JumpIf(_) => b"jumpIf",
        Instr::JumpIfNot(_) => b"jumpIfNot",
        Instr::Next(_, _) => b"next",
        Instr::Tick(_) => b"tick",
        Instr::GetField(_, _) => b"getField",
        Instr::PutField(_, _) => b"putField",
        Instr::GetElem(_) => b"getElem",
        Instr::PutElem(_) => b"putElem",
        Instr::NewObj(_, _) => b"newObj",
        Instr::NewGrid(_, _) => b"newGrid",
        Instr::Print(_, _, _) => b"print",
        Instr::RootTest(_) => b"rootTest",
        Instr::GridTest(_) => b"gridTest",
        Instr::Arrive(_, _) => b"arrive",
        Instr::Depart(_) => b"depart",
        Instr::Take(_) => b"take",
        Instr::Call(_, _) => b"call",
        Instr::Return => b"return",
        Instr::ReturnValue => b"returnValue",
        Instr::Stop(_) => b"stop",
    }
}
