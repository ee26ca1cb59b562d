// Bound expressions.
ghost use Rattle.std.specs.Prelude.{◌≡◌, pos, IfErr, IfOk, IfSome, List, Some};
ghost use Rattle.std.specs.Option.{option_map};
ghost use Rattle.chv_ast.specs.declared.refusal.Refusal.TheVariants.{TypeMismatch};
ghost use Rattle.chv_expr.specs.Bindings.{Refuses, meaning, value_in};
ghost use Rattle.chv_expr.specs.Terms.{value_at};
ghost use Rattle.chv_expr.specs.declared.tree.Tree.TheVariants as tree;
ghost use Rattle.chv_types.specs.Steps.{or_refuse};
ghost use Rattle.chv_types.specs.declared.value.Value.{Value as SomeValue};

use crate::evaluate::{value, value_at};
use crate::tree::Tree;
use crate::{Untyped, ZeroDivisor};
use chv_types::{Kind, Scalar, Seen, Value};
use sqlite_items::Boxed;
use std::alloc::{AllocError, Global};

/// An expression over the columns of a table, by their places.
#[derive(Drop)]
pub struct Bound {
    kind: Kind,
    tree: Boxed<Tree>,
}

impl Bound {
    /// The expression of a tree, of this kind.
    pub(crate) fn new(alloc: Global, kind: Kind, tree: Tree) -> Result<Bound, AllocError>
        ensures kind { IfOk result (λ bound. bound.kind ≡ kind) }
        ensures tree { IfOk result (λ bound. bound.tree ≡ tree) }
    {
        Ok(Bound {
            kind,
            tree: Boxed::new(alloc, tree)?,
        })
    }

    /// The expression of a tree, of a kind of plain values. It is refused where there is none.
    pub(crate) fn of_kind(
        alloc: Global,
        plain: Option<Scalar>,
        tree: Tree,
    ) -> Result<Bound, Untyped>
        ensures kind { IfOk result (λ bound. option_map Kind.Plain plain ≡ Some bound.kind) }
        ensures tree { IfOk result (λ bound. bound.tree ≡ tree) }
        ensures refused { IfErr result (Refuses (or_refuse TypeMismatch plain)) }
    {
        match plain {
            Some(plain) => Ok(Bound::new(alloc, Kind::Plain(plain), tree)?),
            None => Err(Untyped::TypeMismatch),
        }
    }

    /// The tree. It takes no memory.
    pub(crate) fn into_tree(self) -> Boxed<Tree>
        ensures { result ≡ self.tree }
    {
        let Bound { kind: _, tree } = self;
        tree
    }

    /// The column of this place, from 0, and this kind.
    pub fn column(alloc: Global, place: usize, kind: Kind) -> Result<Bound, AllocError>
        ensures kind { IfOk result (λ bound. bound.kind ≡ kind) }
        ensures tree { IfOk result (λ bound. bound.tree ≡ tree.Column place) }
    {
        Bound::new(alloc, kind, Tree::Column(place))
    }

    /// A number, the same over each row.
    pub fn number(alloc: Global, n: u64) -> Result<Bound, AllocError>
        ensures kind { IfOk result (λ bound. bound.kind ≡ Kind.Plain Scalar.UInt64) }
        ensures tree { IfOk result (λ bound. bound.tree ≡ tree.Constant (SomeValue.Whole (pos n))) }
    {
        Bound::new(
            alloc,
            Kind::Plain(Scalar::UInt64),
            Tree::Constant(Value::Whole(n as i128)),
        )
    }

    /// The kind of its values.
    pub fn kind(&self) -> Kind
        ensures { result ≡ self.now.kind }
    {
        self.kind
    }

    /// The place of the column whose value it is, from 0, where it is no more than that.
    #[tactic(auto, using(crate::proofs::TreeLaws::tree_laws))]
    pub fn place(&self) -> Option<usize>
        ensures { IfSome result (λ place. (row : List SomeValue) → meaning self.now row ≡ Some (value_at place row)) }
    {
        match self.tree.get() {
            Tree::Column(place) => Some(*place),
            _ => None,
        }
    }

    /// Its value over a row, borrowed from the row or from a literal. It takes no memory.
    #[tactic(auto, using(crate::proofs::TreeLaws::tree_laws))]
    pub fn seen<'a>(&'a self, row: &'a [Value]) -> Result<Seen<'a>, ZeroDivisor>
        ensures { value_in result ≡ meaning self.now row.now }
    {
        // Most are a column or a constant: these need no walk.
        match self.tree.get() {
            Tree::Column(place) => Ok(value_at(row, *place)),
            Tree::Constant(constant) => Ok(constant.seen()),
            tree => value(tree, row),
        }
    }
}
