// How source locations, points, domains, references and values are written.
ghost use Rattle.std.specs.Prelude.{◌≡◌, ◌+◌, ◌≤◌, ◌++◌, length};
ghost use Rattle.ti_base.specs.Rects.{is_empty};
ghost use Rattle.ti_watch.specs.Lines.{line_room};
ghost use Rattle.ti_watch.specs.Texts as text;

use crate::line::Line;
use ti_base::{Id, Point, Rect, Value, Zero};

// Whether the domain is empty.
fn has_no_points(rect: &Rect) -> bool
    ensures { result ≡ is_empty rect.now }
{
    rect.hi.x1 < rect.lo.x1 || rect.hi.x2 < rect.lo.x2 || rect.hi.x3 < rect.lo.x3
}

impl Line {
    // Appends as many coordinates of a point as it has dimensions, with commas between them.
    fn coordinates(&mut self, point: &Point)
        requires { length self.old + 35 ≤ line_room }
        ensures text { self.new ≡ self.old ++ text.comma_list (text.coordinate_texts point.now) }
        ensures bound { length self.new ≤ length self.old + 35 }
    {
        if point.dim == 0 {
            return;
        }
        self.number(point.x1);
        if point.dim == 1 {
            return;
        }
        self.labelled_number(b",", point.x2);
        if point.dim == 2 {
            return;
        }
        self.labelled_number(b",", point.x3);
    }

    /// Appends a point, in brackets. Requires 37 free bytes.
    pub fn point(&mut self, point: &Point)
        requires { length self.old + 37 ≤ line_room }
        ensures text { self.new ≡ self.old ++ text.point_text point.now }
        ensures bound { length self.new ≤ length self.old + 37 }
    {
        self.text(b"[");
        self.coordinates(point);
        self.text(b"]");
    }

    // Appends a label and a range: its lower bound, upper bound and stride.
    fn range(&mut self, label: &[u8], low: i32, high: i32, step: u32)
        requires { length self.old + length label.now + 34 ≤ line_room }
        ensures text { self.new ≡ self.old ++ label.now ++ text.range_text (record { low = low; high = high; step = step }) }
        ensures bound { length self.new ≤ length self.old + length label.now + 34 }
    {
        self.labelled_number(label, low);
        self.labelled_number(b":", high);
        self.labelled_number(b":", step);
    }

    // Appends as many ranges of a domain as it has dimensions, with commas between them.
    fn ranges(&mut self, rect: &Rect)
        requires { length self.old + 104 ≤ line_room }
        ensures text { self.new ≡ self.old ++ text.comma_list (text.range_texts rect.now) }
        ensures bound { length self.new ≤ length self.old + 104 }
    {
        if rect.dim == 0 {
            return;
        }
        self.range(b"", rect.lo.x1, rect.hi.x1, rect.step[0]);
        if rect.dim == 1 {
            return;
        }
        self.range(b",", rect.lo.x2, rect.hi.x2, rect.step[1]);
        if rect.dim == 2 {
            return;
        }
        self.range(b",", rect.lo.x3, rect.hi.x3, rect.step[2]);
    }

    /// Appends a rectangular domain: its ranges in brackets, or `empty` with the number of dimensions. Requires 106 free bytes.
    pub fn domain(&mut self, rect: &Rect)
        requires { length self.old + 106 ≤ line_room }
        ensures text { self.new ≡ self.old ++ text.rect_text rect.now }
        ensures bound { length self.new ≤ length self.old + 106 }
    {
        if has_no_points(rect) {
            self.labelled_number(b"empty", rect.dim);
            return;
        }
        self.text(b"[");
        self.ranges(rect);
        self.text(b"]");
    }

    /// Appends a label, the number of the process that created an object or grid, a dot, and its serial number.
    pub fn id(&mut self, label: &[u8], id: Id)
        requires { length self.old + length label.now + 21 ≤ line_room }
        ensures text { self.new ≡ self.old ++ label.now ++ text.id_text id }
        ensures bound { length self.new ≤ length self.old + length label.now + 21 }
    {
        self.labelled_number(label, id.maker);
        self.labelled_number(b".", id.serial);
    }

    /// Appends a value. Requires 106 free bytes.
    pub fn value(&mut self, value: Value)
        requires { length self.old + 106 ≤ line_room }
        ensures text { self.new ≡ self.old ++ text.trace_value_text value }
        ensures bound { length self.new ≤ length self.old + 106 }
    {
        match value {
            Value::Int(n) => self.number(n),
            Value::Long(n) => {
                self.number(n);
                self.text(b"L");
            }
            Value::Bool(true) => self.text(b"true"),
            Value::Bool(false) => self.text(b"false"),
            Value::Pt(p) => self.point(&p),
            Value::Rc(r) => self.domain(&r),
            Value::Obj(None) => self.text(b"null"),
            Value::Obj(Some(id)) => self.id(b"obj", id),
            Value::Grid(None) => self.text(b"null"),
            Value::Grid(Some(id)) => self.id(b"grid", id),
            Value::Region(n) => self.labelled_number(b"region", n),
        }
    }

    /// Appends the type of the initial value of a grid's elements. Requires 8 free bytes.
    pub fn zero(&mut self, zero: Zero)
        requires { length self.old + 8 ≤ line_room }
        ensures text { self.new ≡ self.old ++ text.zero_text zero }
        ensures bound { length self.new ≤ length self.old + 8 }
    {
        match zero {
            Zero::Int => self.text(b"int"),
            Zero::Long => self.text(b"long"),
            Zero::Bool => self.text(b"boolean"),
            Zero::Pt(dim) => self.labelled_number(b"point", dim),
            Zero::Rc(dim) => self.labelled_number(b"rect", dim),
            Zero::Obj => self.text(b"object"),
            Zero::Grid => self.text(b"grid"),
        }
    }
}
