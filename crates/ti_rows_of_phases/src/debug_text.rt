// Prints trees in the format of a derived `Debug`, which the crates of the trees don't derive since that would slow down their proofs.
// A node is described by a form, which is its text with `@` for each of its parts. An explicit stack of pending work takes the place of
// recursion, so that each kind of node has one short function without it, which is cheap to prove.

use std::alloc::{AllocError, Global};
use std::fmt;
use ti_base::Place;
use ti_syntax::Spelled;
use ti_syntax::tree::{BinaryOperator, Modifier, Qualifier, StepOperator, UnaryOperator};

/// A value without parts.
#[derive(Clone, Copy)]
pub(crate) enum Leaf<'a> {
    Number(i64),
    Truth(bool),
    Place(Place),
    Spelled(&'a Spelled),
    Unary(UnaryOperator),
    Binary(BinaryOperator),
    StepOperator(StepOperator),
    Modifier(Modifier),
    Qualifier(Qualifier),
    MaybeNumber(Option<u32>),
    MaybePlace(Option<Place>),
}

/// A leaf by its own `Debug`.
pub(crate) fn leaf_text(alloc: Global, leaf: Leaf) -> Result<String, AllocError> {
    match leaf {
        Leaf::Number(number) => value_text(alloc, &number),
        Leaf::Truth(truth) => value_text(alloc, &truth),
        Leaf::Place(place) => value_text(alloc, &place),
        Leaf::Spelled(spelled) => value_text(alloc, spelled),
        Leaf::Unary(operator) => value_text(alloc, &operator),
        Leaf::Binary(operator) => value_text(alloc, &operator),
        Leaf::StepOperator(operator) => value_text(alloc, &operator),
        Leaf::Modifier(modifier) => value_text(alloc, &modifier),
        Leaf::Qualifier(qualifier) => value_text(alloc, &qualifier),
        Leaf::MaybeNumber(maybe) => value_text(alloc, &maybe),
        Leaf::MaybePlace(maybe) => value_text(alloc, &maybe),
    }
}

/// A value by its own `Debug`.
fn value_text<T: fmt::Debug>(alloc: Global, value: &T) -> Result<String, AllocError> {
    format!(in alloc; "{value:?}")
}

/// How a node is printed.
#[derive(Clone, Copy)]
pub(crate) enum Shape {
    /// As the text that `Node::leaf` gives.
    Leaf,
    /// As this text, with `@` for each part.
    Parts(&'static str),
    /// As a list of the elements that `Node::element` gives.
    List,
}

/// How a node is printed, with its parts in order, of which there are at most six.
#[derive(Drop)]
pub(crate) struct NodeText<N> {
    shape: Shape,
    parts: [Option<N>; 6],
}

impl<N: Copy> NodeText<N> {
    /// A leaf.
    pub(crate) fn leaf() -> NodeText<N> {
        NodeText {
            shape: Shape::Leaf,
            parts: [None, None, None, None, None, None],
        }
    }

    /// A list.
    pub(crate) fn list() -> NodeText<N> {
        NodeText {
            shape: Shape::List,
            parts: [None, None, None, None, None, None],
        }
    }

    /// A node without parts.
    pub(crate) fn of0(text: &'static str) -> NodeText<N> {
        NodeText {
            shape: Shape::Parts(text),
            parts: [None, None, None, None, None, None],
        }
    }

    /// A node with one part.
    pub(crate) fn of1(text: &'static str, first: N) -> NodeText<N> {
        NodeText {
            shape: Shape::Parts(text),
            parts: [Some(first), None, None, None, None, None],
        }
    }

    /// A node with two parts.
    pub(crate) fn of2(text: &'static str, first: N, second: N) -> NodeText<N> {
        NodeText {
            shape: Shape::Parts(text),
            parts: [Some(first), Some(second), None, None, None, None],
        }
    }

    /// A node with three parts.
    pub(crate) fn of3(text: &'static str, first: N, second: N, third: N) -> NodeText<N> {
        NodeText {
            shape: Shape::Parts(text),
            parts: [Some(first), Some(second), Some(third), None, None, None],
        }
    }

    /// A node with four parts.
    pub(crate) fn of4(text: &'static str, first: N, second: N, third: N, fourth: N) -> NodeText<N> {
        NodeText {
            shape: Shape::Parts(text),
            parts: [
                Some(first),
                Some(second),
                Some(third),
                Some(fourth),
                None,
                None,
            ],
        }
    }

    /// A node with five parts.
    pub(crate) fn of5(
        text: &'static str,
        first: N,
        second: N,
        third: N,
        fourth: N,
        fifth: N,
    ) -> NodeText<N> {
        NodeText {
            shape: Shape::Parts(text),
            parts: [
                Some(first),
                Some(second),
                Some(third),
                Some(fourth),
                Some(fifth),
                None,
            ],
        }
    }

    /// A node with six parts.
    pub(crate) fn of6(
        text: &'static str,
        first: N,
        second: N,
        third: N,
        fourth: N,
        fifth: N,
        sixth: N,
    ) -> NodeText<N> {
        NodeText {
            shape: Shape::Parts(text),
            parts: [
                Some(first),
                Some(second),
                Some(third),
                Some(fourth),
                Some(fifth),
                Some(sixth),
            ],
        }
    }

    /// How the node is printed.
    pub(crate) fn shape(&self) -> Shape {
        self.shape
    }

    /// The part with this index. `None` if the node has fewer parts.
    pub(crate) fn part(&self, index: usize) -> Option<N> {
        match self.parts.get(index) {
            Some(part) => *part,
            None => None,
        }
    }
}

/// A node of a tree, or a list of nodes.
pub(crate) trait Node: Copy {
    /// How this node is printed.
    fn shape(self) -> Shape;

    /// The text of a leaf. Empty for any other node.
    fn leaf(self, alloc: Global) -> Result<String, AllocError>;

    /// The part with this index. `None` if the node has fewer parts.
    fn part(self, index: usize) -> Option<Self>;

    /// The element with this index of a list of nodes. `None` after its last element, and if this isn't a list.
    fn element(self, index: usize) -> Option<Self>;
}

/// What is still to be printed.
#[derive(Drop)]
enum Pending<N> {
    Node(N),
    /// What is left of the text of a node, whose first `@` stands for the part with the index `next`.
    Rest {
        node: N,
        text: &'static str,
        next: usize,
    },
    /// The elements of a list from the index `next` on.
    Elements {
        list: N,
        next: usize,
    },
}

/// The output so far, and what is still to be printed.
#[derive(Drop)]
struct Printer<N> {
    out: String,
    /// What is last in this list is printed next.
    pending: Vec<Pending<N>>,
}

impl<N: Node> Printer<N> {
    /// Prints the rest of a node's text up to its next part, which then comes first.
    fn rest(&mut self, node: N, text: &'static str, next: usize) -> Result<(), AllocError> {
        let Some((before, after)) = text.split_once('@') else {
            return self.out.push_str(text);
        };
        self.out.push_str(before)?;
        self.pending.push(Pending::Rest {
            node,
            text: after,
            next: next.saturating_add(1),
        })?;
        if let Some(part) = node.part(next) {
            self.pending.push(Pending::Node(part))?;
        }
        Ok(())
    }

    /// Prints a leaf, or begins a text with parts or a list.
    fn begin(&mut self, alloc: Global, node: N) -> Result<(), AllocError> {
        match node.shape() {
            Shape::Leaf => self.out.push_str(&node.leaf(alloc)?),
            Shape::Parts(text) => self.rest(node, text, 0),
            Shape::List => {
                self.out.push('[')?;
                self.elements(node, 0)
            }
        }
    }

    /// Prints what stands before the next element of a list, which then comes first; or the end of the list.
    fn elements(&mut self, list: N, next: usize) -> Result<(), AllocError> {
        let Some(element) = list.element(next) else {
            return self.out.push(']');
        };
        if next > 0 {
            self.out.push_str(", ")?;
        }
        self.pending.push(Pending::Elements {
            list,
            next: next.saturating_add(1),
        })?;
        self.pending.push(Pending::Node(element))?;
        Ok(())
    }

    /// Prints one piece of what is pending.
    fn step(&mut self, alloc: Global, pending: Pending<N>) -> Result<(), AllocError> {
        match pending {
            Pending::Node(node) => self.begin(alloc, node),
            Pending::Rest { node, text, next } => self.rest(node, text, next),
            Pending::Elements { list, next } => self.elements(list, next),
        }
    }
}

// Upper bound on the number of steps, so that the loop in `debug_text` is bounded.
const MOST: u32 = 100_000_000;

/// A node in the format of a derived `Debug`. The output is cut off after `MOST` steps.
pub(crate) fn debug_text<N: Node>(alloc: Global, node: N) -> Result<String, AllocError> {
    let mut printer = Printer {
        out: String::new(alloc),
        pending: Vec::new(alloc),
    };
    printer.pending.push(Pending::Node(node))?;
    for _ in 0..MOST {
        match printer.pending.pop() {
            Some(pending) => printer.step(alloc, pending)?,
            None => return Ok(printer.out),
        }
    }
    Ok(printer.out)
}
