// The values of variables and operands. Accessors of one kind of value yield a default for the others, as in the semantics, so that they
// have no preconditions.

ghost use Rattle.std.specs.Prelude.{◌≡◌, ◌≤◌, length, IfOk};
ghost use Rattle.ti_base.specs.Points.{IsPoint};
ghost use Rattle.ti_base.specs.Rects.{IsRect};
ghost use Rattle.ti_lang.specs.Meaning.Held as held;
ghost use Rattle.ti_eval.specs.Forms.{IsFormedValue};

use crate::variables::empty_rect;
use std::alloc::Global;
use std::marker::Model;
use ti_base::{Id, Memory, Point, Rect, Value};
use ti_domain::{Dom, Held, dim_of, dom_copy, dom_pieces};

/// A run-time value: a value of a cell, in which a point or a rectangular domain is canonical, or a general domain. Contracts see it as the
/// semantics does.
#[derive(Drop)]
pub struct VarValue {
    pub(crate) kept: Held,
}

impl Model for VarValue {
    ghost use Rattle.ti_lang.specs.Meaning.Held.{Held};

    ghost Value = { Held };

    ghost use Rattle.ti_eval.specs.Forms.{held_of, IsFormedHeld};

    ghost view = { λ h. held_of h.kept };

    ghost invariant = { λ h. IsFormedHeld (held_of h.kept) };
}

impl VarValue {
    /// A value that isn't a general domain.
    pub fn plain(value: Value) -> VarValue
        requires { IsFormedValue value }
        ensures { result ≡ held.Plain value }
    {
        VarValue {
            kept: Held::Plain(value),
        }
    }

    /// A general domain.
    pub fn domain(domain: Dom) -> VarValue
        ensures value { result ≡ held.Dm domain.dim domain.points }
        ensures small { length domain.points ≤ 1048576 }
    {
        // For the prover: brings the bound on the number of points into scope.
        let _ = dom_pieces(&domain);
        VarValue {
            kept: Held::Dm(domain),
        }
    }

    /// A boolean.
    pub fn boolean(value: bool) -> VarValue
        ensures { result ≡ held.truth value }
    {
        VarValue::plain(Value::Bool(value))
    }

    /// A copy.
    pub fn copy(&self, alloc: Global) -> Result<VarValue, Memory>
        ensures { IfOk result (λ h. h ≡ self.now) }
    {
        match &self.kept {
            Held::Plain(value) => Ok(VarValue {
                kept: Held::Plain(*value),
            }),
            Held::Dm(d) => Ok(VarValue {
                kept: Held::Dm(dom_copy(alloc, d)?),
            }),
        }
    }

    /// Whether it is `true`.
    pub fn is_true(&self) -> bool
        ensures { result ≡ held.truth_of self.now }
    {
        match &self.kept {
            Held::Plain(Value::Bool(b)) => *b,
            _ => false,
        }
    }

    /// The number that an int or a long is; 0 for another value.
    pub fn integer(&self) -> i64
        ensures { result ≡ held.whole_of self.now }
    {
        match &self.kept {
            Held::Plain(Value::Int(n)) => i64::from(*n),
            Held::Plain(Value::Long(n)) => *n,
            _ => 0,
        }
    }

    /// The number that an int is; 0 for another value.
    pub fn int(&self) -> i32
        ensures { result ≡ held.int_of self.now }
    {
        match &self.kept {
            Held::Plain(Value::Int(n)) => *n,
            _ => 0,
        }
    }

    /// The point that it is; the one-dimensional point 0 for another value.
    pub fn point(&self) -> Point
        ensures value { result ≡ held.point_of self.now }
        ensures form { IsPoint result }
    {
        match &self.kept {
            Held::Plain(Value::Pt(p)) => *p,
            _ => Point {
                dim: 1,
                x1: 0,
                x2: 0,
                x3: 0,
            },
        }
    }

    /// The object or the grid that it refers to, if there is one.
    pub fn thing(&self) -> Option<Id>
        ensures { result ≡ held.referent_of self.now }
    {
        match &self.kept {
            Held::Plain(Value::Obj(id)) => *id,
            Held::Plain(Value::Grid(id)) => *id,
            _ => None,
        }
    }

    /// The number of the region that it is; 0 for another value.
    pub fn region(&self) -> u32
        ensures { result ≡ held.region_of self.now }
    {
        match &self.kept {
            Held::Plain(Value::Region(n)) => *n,
            _ => 0,
        }
    }

    /// The value for a cell or an action; `false` for a general domain.
    pub fn value(&self) -> Value
        ensures { result ≡ held.plain_of self.now }
    {
        match &self.kept {
            Held::Plain(value) => *value,
            Held::Dm(_) => Value::Bool(false),
        }
    }

    /// The rectangular domain that it is; an empty one for another value.
    pub fn rect(&self) -> Rect
        ensures value { result ≡ held.rect_of self.now }
        ensures form { IsRect result }
    {
        match &self.kept {
            Held::Plain(Value::Rc(r)) => *r,
            _ => empty_rect(1),
        }
    }

    /// The dimension of a domain, rectangular or not; 1 for another value.
    pub fn dim(&self) -> u8
        ensures { result ≡ held.dim_of self.now }
    {
        match &self.kept {
            Held::Plain(Value::Rc(r)) => r.dim,
            Held::Plain(_) => 1,
            Held::Dm(d) => dim_of(d),
        }
    }
}
