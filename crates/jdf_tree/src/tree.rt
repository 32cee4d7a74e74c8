//! A JDF text as a tree, down to arguments.

use crate::expression::{ExprTree, Word};
use jdf_lex::{Spot, Token};
use ptg_base::Seq;
use term_core::{Direction, FlowKind};

/// An argument of a list, or the value of a definition: an expression or a range.
pub enum ArgTree {
    /// One value.
    One(ExprTree),
    /// `lo .. hi` or `lo .. hi .. step`, with the spot of its first token.
    Span(Spot, ExprTree, ExprTree, Option<ExprTree>),
}

impl Drop for ArgTree {
    fn drop(self) {
        match self {
            ArgTree::One(_value) => {}
            ArgTree::Span(_, _lo, _hi, _step) => {}
        }
    }
}

/// A definition of a class, `name = value`.
pub struct DefTree {
    pub name: Word,
    pub value: ArgTree,
}

impl Drop for DefTree {
    fn drop(self) {
        let DefTree {
            name: _name,
            value: _value,
        } = self;
    }
}

/// The target of a dependence: where it leads to, or comes from.
pub enum TargetTree {
    /// A flow of a task: the flow, the class and the arguments.
    Task(Word, Word, Seq<ArgTree>),
    /// An element of a collection: the collection and the indices.
    Element(Word, Seq<ArgTree>),
    /// `NEW`, and its spot.
    New(Spot),
    /// `NULL`, and its spot.
    Null(Spot),
}

impl Drop for TargetTree {
    fn drop(self) {
        match self {
            TargetTree::Task(_flow, _class, _args) => {}
            TargetTree::Element(_coll, _indices) => {}
            TargetTree::New(_) | TargetTree::Null(_) => {}
        }
    }
}

/// A dependence. Its target is `yes` if it has no guard or the guard holds, else `no`, which may be left out.
pub struct DepTree {
    /// Its arrow: `<-` is in, and `->` is out.
    pub direction: Direction,
    pub guard: Option<ExprTree>,
    pub yes: TargetTree,
    pub no: Option<TargetTree>,
    /// The name in `[type = NAME]`.
    pub datatype: Option<Word>,
}

impl Drop for DepTree {
    fn drop(self) {
        let DepTree {
            direction: _direction,
            guard: _guard,
            yes: _yes,
            no: _no,
            datatype: _datatype,
        } = self;
    }
}

/// A flow of a class, with its dependences in the order of the text.
pub struct FlowTree {
    pub kind: FlowKind,
    pub name: Word,
    pub deps: Seq<DepTree>,
}

impl Drop for FlowTree {
    fn drop(self) {
        let FlowTree {
            kind: _kind,
            name: _name,
            deps: _deps,
        } = self;
    }
}

/// A class of tasks. Its body is kept as its tokens.
pub struct ClassTree {
    pub name: Word,
    pub params: Seq<Word>,
    pub defs: Seq<DefTree>,
    pub affinity: Word,
    pub affinity_args: Seq<ArgTree>,
    pub flows: Seq<FlowTree>,
    pub priority: Option<ExprTree>,
    pub body: Seq<Token>,
    /// The spot of `END`.
    pub finish: Spot,
}

impl Drop for ClassTree {
    fn drop(self) {
        let ClassTree {
            name: _name,
            params: _params,
            defs: _defs,
            affinity: _affinity,
            affinity_args: _affinity_args,
            flows: _flows,
            priority: _priority,
            body: _body,
            finish: _finish,
        } = self;
    }
}

/// A JDF text: its globals and its classes in the order of the text. Extern blocks, options and properties are not
/// kept.
pub struct Jdf {
    pub globals: Seq<Word>,
    pub classes: Seq<ClassTree>,
}

impl Drop for Jdf {
    fn drop(self) {
        let Jdf {
            globals: _globals,
            classes: _classes,
        } = self;
    }
}
