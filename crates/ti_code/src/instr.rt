// The instruction set of the virtual machine: a stack machine whose frames have numbered slots.

use ti_base::{CollKind, Place, Value, Zero};

/// A binary operator, by its name in the listing. If several names denote one operator of the language, they say which types the operands
/// have: `Add` is for numbers, `PtAdd` for points, `DomUnion` for domains.
#[derive(Clone, Copy)]
pub enum Operation {
    Add,
    Sub,
    Mul,
    Div,
    Rem,
    Shl,
    Shr,
    Ushr,
    And,
    Or,
    Xor,
    Eq,
    Ne,
    Lt,
    Le,
    Gt,
    Ge,
    PtAdd,
    PtSub,
    RectMeet,
    DomUnion,
    DomMinus,
    DomMeet,
    /// `&&` of two operands that have both been evaluated: the right one. No compiled program has this instruction, since `&&` becomes
    /// jumps.
    AndThen,
    /// `||` of two operands that have both been evaluated: the right one. No compiled program has this instruction, since `||` becomes
    /// jumps.
    OrElse,
}

/// A unary operator, by its name in the listing.
#[derive(Clone, Copy)]
pub enum OneOperand {
    Neg,
    Com,
    Not,
}

/// A built-in member that has a value: of a domain, or of a grid.
#[derive(Clone, Copy)]
pub enum ValueMember {
    Size,
    Min,
    Max,
    Contains,
    DomainOf,
    Restrict,
    Translate,
    Slice,
}

/// An instruction. Jump targets are instruction numbers in the same method. Places that the listing omits are those of faults; numbers that
/// it omits say how many operands are popped.
#[derive(Clone, Copy)]
pub enum Instr {
    /// Pushes a constant.
    Const(Value),
    /// Pushes the empty domain of the given number of dimensions.
    EmptyDom(u8),
    /// Pops the top operand.
    Pop,
    /// Pushes a copy of the top operand.
    Dup,
    /// Pushes the value of a slot.
    Load(u32),
    /// Pops the top operand into a slot; into a new slot if no slot has this number.
    Keep(u32),
    /// Keeps the given number of oldest slots and drops the others.
    Trim(u32),
    /// Pushes the number of the process itself.
    ThisProc,
    /// Pushes the number of processes.
    NumProcs,
    /// Applies a binary operator to the two top operands.
    Operate(Operation, Place),
    /// Applies a unary operator to the top operand.
    Alone(OneOperand),
    /// Converts an int to a long.
    Widen,
    /// Converts a long to an int, keeping its low 32 bits.
    Narrow,
    /// Makes `null` a reference to an object.
    AsObj,
    /// Makes `null` a reference to a grid.
    AsGrid,
    /// Pops the given number of coordinates and pushes the point that they make.
    MakePt(u32),
    /// Pops the given number of indices and the point below them; pushes the coordinate that the first index denotes.
    Coord(u32, Place),
    /// Pushes the default step of a range whose low and high bounds are the two top operands: 1, or the point whose coordinates are all 1.
    Step,
    /// Pops the given number of ranges of numbers, each with its step, and pushes the rectangular domain.
    MakeRect(u32, Place),
    /// Pops one range of points, with its step, and pushes the rectangular domain.
    RectOfPts(Place),
    /// The intersection of two rectangular domains. If they have different numbers of dimensions, it is empty.
    Common,
    /// Converts a rectangular domain to a general domain.
    ToDom(Place),
    /// Evaluates a built-in member with the given number of arguments.
    Member(ValueMember, u32, Place),
    /// Cast to a local reference: a fault unless it is null or refers to an object of the process itself.
    CastLocal(Place),
    Jump(u32),
    /// Pops a boolean and jumps if it is true.
    JumpIf(u32),
    /// Pops a boolean and jumps if it is false.
    JumpIfNot(u32),
    /// Moves the first point of the domain on top into a slot and leaves the other points on top; jumps if the domain is empty. The
    /// operands are the slot and the target.
    Next(u32, u32),
    /// Spends a tick of fuel.
    Tick(Place),
    GetField(u32, Place),
    PutField(u32, Place),
    GetElem(Place),
    PutElem(Place),
    /// Makes a new object of a class, in the region on top.
    NewObj(u32, Place),
    /// Makes a new grid with these initial elements, over the domain on top and in the region below it.
    NewGrid(Zero, Place),
    /// Prints a line: a string literal and the top operand, each if there is one.
    Print(Option<u32>, bool, Place),
    /// Checks that the top operand is the number of a process. It stays on the stack.
    RootTest(Place),
    /// Checks that the top operand is the domain with one point for each process. It stays on the stack.
    GridTest(Place),
    /// Arrives at a collective.
    Arrive(CollKind, Place),
    /// Leaves the collective.
    Depart(Place),
    /// Pops a process's point and pushes what that process contributed to the exchange that was left last.
    Take(Place),
    /// Calls the method with this number. Costs a tick.
    Call(u32, Place),
    /// Returns to the caller without a value.
    Return,
    /// Returns to the caller with the top operand as the value of the call.
    ReturnValue,
    /// Ends the process.
    Stop(Place),
}
