// How operations and their results are written.
ghost use Rattle.std.specs.Prelude.{◌≡◌, ◌+◌, ◌≤◌, ◌++◌, length, codes, decimal};
ghost use Rattle.ti_base.specs.FaultNames.{name_of};
ghost use Rattle.ti_watch.specs.Lines.{line_room};
ghost use Rattle.ti_watch.specs.Acts as spec;
ghost use Rattle.ti_watch.specs.Mirrors.{kind_of_action, kind_word};
ghost use Rattle.ti_watch.specs.Texts as text;

use crate::line::Line;
use ti_base::{
    Action, Answer, CollKind, Deposit, FaultKind, Id, Point, Rect, Value, ViewHow, Zero, fault_name,
};

/// The operation of an action, without its operands.
#[derive(Clone, Copy)]
pub enum ActKind {
    GetField,
    PutField,
    NewObj,
    NewGrid,
    GetElem,
    PutElem,
    MakeView,
    DomainOf,
    Print,
    Arrive,
    Depart,
    Take,
    End,
    Fault,
}

/// The operation of an action.
pub fn act_kind(act: Action) -> ActKind
    ensures { result ≡ kind_of_action act }
{
    match act {
        Action::GetField { .. } => ActKind::GetField,
        Action::PutField { .. } => ActKind::PutField,
        Action::NewObj { .. } => ActKind::NewObj,
        Action::NewGrid { .. } => ActKind::NewGrid,
        Action::GetElem { .. } => ActKind::GetElem,
        Action::PutElem { .. } => ActKind::PutElem,
        Action::MakeView { .. } => ActKind::MakeView,
        Action::DomainOf { .. } => ActKind::DomainOf,
        Action::Print { .. } => ActKind::Print,
        Action::Arrive { .. } => ActKind::Arrive,
        Action::Depart => ActKind::Depart,
        Action::Take { .. } => ActKind::Take,
        Action::End => ActKind::End,
        Action::Fault { .. } => ActKind::Fault,
    }
}

impl ActKind {
    /// Its name, of at most 8 bytes.
    pub fn word(self) -> &'static str
        ensures word { result.now ≡ kind_word self }
        ensures short { length result.now ≤ 8 }
    {
        match self {
            ActKind::GetField => "getField",
            ActKind::PutField => "putField",
            ActKind::NewObj => "newObj",
            ActKind::NewGrid => "newGrid",
            ActKind::GetElem => "getElem",
            ActKind::PutElem => "putElem",
            ActKind::MakeView => "makeView",
            ActKind::DomainOf => "domainOf",
            ActKind::Print => "print",
            ActKind::Arrive => "arrive",
            ActKind::Depart => "depart",
            ActKind::Take => "take",
            ActKind::End => "end",
            ActKind::Fault => "fault",
        }
    }
}

// The name of a fault, of at most 16 bytes.
fn name_bytes(kind: FaultKind) -> &'static [u8]
    ensures value { result.now ≡ name_of kind }
    ensures short { length result.now ≤ 16 }
{
    fault_name(kind).as_bytes()
}

/// The name of a collective, of at most 12 bytes.
pub fn collective_name(kind: CollKind) -> &'static [u8]
    ensures value { result.now ≡ spec.collective_text kind }
    ensures short { length result.now ≤ 12 }
{
    match kind {
        CollKind::Barrier => b"barrier",
        CollKind::Broadcast => b"broadcast",
        CollKind::Exchange => b"exchange",
        CollKind::MakeRegion => b"makeRegion",
        CollKind::DeleteRegion => b"deleteRegion",
    }
}

// Operands, each preceded by a space. `requires` clauses say how many bytes of the line have to be free.
impl Line {
    /// Appends a space and the label with the number, or a space and `-` if there is none.
    pub fn optional(&mut self, label: &[u8], number: Option<u32>)
        requires { length self.old + length label.now + 11 ≤ line_room }
        ensures text { self.new ≡ self.old ++ codes " " ++ spec.optional (λ n. label.now ++ decimal n) number }
        ensures bound { length self.new ≤ length self.old + length label.now + 11 }
    {
        self.text(b" ");
        match number {
            Some(n) => self.labelled_number(label, n),
            None => self.text(b"-"),
        }
    }

    /// Appends a space and a value.
    pub fn operand(&mut self, value: Value)
        requires { length self.old + 107 ≤ line_room }
        ensures text { self.new ≡ self.old ++ codes " " ++ text.trace_value_text value }
        ensures bound { length self.new ≤ length self.old + 107 }
    {
        self.text(b" ");
        self.value(value);
    }

    // Appends a space and a value, or a space and `-` if there is none.
    fn printed_value(&mut self, value: Option<Value>)
        requires { length self.old + 107 ≤ line_room }
        ensures text { self.new ≡ self.old ++ codes " " ++ spec.optional text.trace_value_text value }
        ensures bound { length self.new ≤ length self.old + 107 }
    {
        match value {
            Some(value) => self.operand(value),
            None => self.text(b" -"),
        }
    }

    // Appends what a process contributes at its arrival.
    fn deposit(&mut self, deposit: Deposit)
        requires { length self.old + 107 ≤ line_room }
        ensures text { self.new ≡ self.old ++ codes " " ++ spec.deposit_text deposit }
        ensures bound { length self.new ≤ length self.old + 107 }
    {
        match deposit {
            Deposit::Nothing => self.text(b" -"),
            Deposit::One(value) => self.operand(value),
            Deposit::Count(n) => self.labelled_number(b" count:", n),
        }
    }

    // Appends how a view is made.
    fn view(&mut self, how: ViewHow)
        requires { length self.old + 116 ≤ line_room }
        ensures text { self.new ≡ self.old ++ codes " " ++ spec.view_text how }
        ensures bound { length self.new ≤ length self.old + 116 }
    {
        match how {
            ViewHow::Restrict(r) => {
                self.text(b" restrict ");
                self.domain(&r);
            }
            ViewHow::Translate(by) => {
                self.text(b" translate ");
                self.point(&by);
            }
            ViewHow::Slice(k, j) => {
                self.labelled_number(b" slice ", k);
                self.labelled_number(b" ", j);
            }
        }
    }

    // Appends an object and the number of its field.
    fn field(&mut self, obj: Id, field: u32)
        requires { length self.old + 37 ≤ line_room }
        ensures text { self.new ≡ self.old ++ spec.field_text obj field }
        ensures bound { length self.new ≤ length self.old + 37 }
    {
        self.id(b" obj", obj);
        self.labelled_number(b" ", field);
    }

    // Appends a grid and the point of its element.
    fn element(&mut self, grid: Id, index_point: &Point)
        requires { length self.old + 64 ≤ line_room }
        ensures text { self.new ≡ self.old ++ spec.element_text grid index_point.now }
        ensures bound { length self.new ≤ length self.old + 64 }
    {
        self.id(b" grid", grid);
        self.text(b" ");
        self.point(index_point);
    }

    // Appends the initial value of the elements of a new grid, its domain and its region.
    fn new_grid(&mut self, zero: Zero, dom: &Rect, region: u32)
        requires { length self.old + 127 ≤ line_room }
        ensures text { self.new ≡ self.old ++ spec.new_grid_text zero dom.now region }
        ensures bound { length self.new ≤ length self.old + 127 }
    {
        self.text(b" ");
        self.zero(zero);
        self.text(b" ");
        self.domain(dom);
        self.labelled_number(b" ", region);
    }

    // Appends the operands of an arrival: the collective, its argument and the contribution.
    fn arrival(&mut self, kind: CollKind, arg: Option<u32>, deposit: Deposit)
        requires { length self.old + 131 ≤ line_room }
        ensures text { self.new ≡ self.old ++ spec.arrival_text kind arg deposit }
        ensures bound { length self.new ≤ length self.old + 131 }
    {
        self.text(b" ");
        self.text(collective_name(kind));
        self.optional(b"", arg);
        self.deposit(deposit);
    }

    // Appends all operands of an operation.
    fn operands(&mut self, act: Action)
        requires { length self.old + 171 ≤ line_room }
        ensures text { self.new ≡ self.old ++ spec.action_operands_text act }
        ensures bound { length self.new ≤ length self.old + 171 }
    {
        match act {
            Action::GetField { obj, field } => self.field(obj, field),
            Action::PutField { obj, field, value } => {
                self.field(obj, field);
                self.operand(value);
            }
            Action::NewObj { class, region } => {
                self.labelled_number(b" ", class);
                self.labelled_number(b" ", region);
            }
            Action::NewGrid { zero, dom, region } => self.new_grid(zero, &dom, region),
            Action::GetElem { grid, at } => self.element(grid, &at),
            Action::PutElem { grid, at, value } => {
                self.element(grid, &at);
                self.operand(value);
            }
            Action::MakeView { grid, how } => {
                self.id(b" grid", grid);
                self.view(how);
            }
            Action::DomainOf { grid } => self.id(b" grid", grid),
            Action::Print { literal, value } => {
                self.optional(b"s", literal);
                self.printed_value(value);
            }
            Action::Arrive { kind, arg, deposit } => self.arrival(kind, arg, deposit),
            Action::Depart => {}
            Action::Take { who } => self.labelled_number(b" ", who),
            Action::End => {}
            Action::Fault { kind } => {
                self.text(b" ");
                self.text(name_bytes(kind));
            }
        }
    }
}

impl Line {
    /// Appends an operation: its name and its operands. Requires 179 free bytes.
    pub fn act(&mut self, act: Action)
        requires { length self.old + 179 ≤ line_room }
        ensures text { self.new ≡ self.old ++ spec.act_text act }
        ensures bound { length self.new ≤ length self.old + 179 }
    {
        self.text(act_kind(act).word().as_bytes());
        self.operands(act);
    }

    /// Appends the result of an operation. Requires 106 free bytes.
    pub fn answer(&mut self, answer: Answer)
        requires { length self.old + 106 ≤ line_room }
        ensures text { self.new ≡ self.old ++ spec.answer_text answer }
        ensures bound { length self.new ≤ length self.old + 106 }
    {
        match answer {
            Answer::Done => self.text(b"done"),
            Answer::Val(value) => self.value(value),
        }
    }
}
