//! Compares the CHECK clause of a table with that of `campaign`, which is `id = 1`. A term is kept
//! as nodes, which name those below them by their indexes; `root` is the index of the topmost one.
ghost use Rattle.std.specs.Prelude.{◌≡◌, ◌≢◌, [], ◌∷◌, ℕ, Some, IfSome, IfNone, pos, ◌↔◌, IsTrue};
ghost use Rattle.std.specs.Option.{option_copied};
ghost use Rattle.sqlite.specs.declared.types.Value.TheVariants.{Int};
ghost use Rattle.sqlite_schema.specs.Code.{term_in};
ghost use Rattle.sqlite_schema.specs.declared.code.Op.TheVariants as variant;
ghost use Rattle.sqlite_sql.specs.Term.{lit, col, op2};
ghost use Rattle.sqlite_sql.specs.declared.ops.BinaryOp.TheVariants.{Compare};
ghost use Rattle.sqlite_sql.specs.declared.ops.CompareOp.TheVariants.{Eq};
ghost use Rattle.sqlite.specs.Collation.TheVariants.{Binary};

use sqlite_items::at;
use sqlite_schema::code::{Op, Terms};
use sqlite_sql::ops::{BinaryOp, CompareOp};
use sqlite_value::keys::Collation;
use sqlite_value::value::Value;

/// The indexes of the two nodes that a node compares by `=` under the collation BINARY; None for
/// any other node.
fn sides(node: Option<&Op>) -> Option<(usize, usize)>
    ensures equal { IfSome result
        (λ two. option_copied node.entry ≡ Some (variant.Binary (Compare Eq Binary) two.0 two.1)) }
    ensures other { IfNone result
        ((a b : ℕ) → option_copied node.entry ≢ Some (variant.Binary (Compare Eq Binary) a b)) }
{
    match node {
        Some(Op::Binary(BinaryOp::Compare(CompareOp::Eq, Collation::Binary), left, right)) => {
            Some((*left, *right))
        }
        _ => None,
    }
}

/// `Column(1, 0)` is the row's number, which is the column `id` of `campaign`.
fn is_number(node: Option<&Op>) -> bool
    ensures { IsTrue result ↔ (option_copied node.entry ≡ Some (variant.Column 1 0)) }
{
    matches!(node, Some(Op::Column(1, 0)))
}

fn is_one(node: Option<&Op>) -> bool
    ensures { IsTrue result ↔ (option_copied node.entry ≡ Some (variant.Literal (Int (pos 1)))) }
{
    matches!(node, Some(Op::Literal(Value::Int(1))))
}

/// Whether the term of the node `root` is `id = 1`.
fn has_number_one(nodes: &[Op], root: usize) -> bool
    ensures { IsTrue result ↔
        (term_in nodes.now root ≡ op2 (Compare Eq Binary) (col 1 0) (lit (Int (pos 1)))) }
{
    match sides(at(nodes, root)) {
        Some((left, right)) => is_number(at(nodes, left)) && is_one(at(nodes, right)),
        None => false,
    }
}

pub(crate) fn checks_id_is_one(checks: &Terms) -> bool
    ensures { IsTrue result ↔
        (checks.now ≡ op2 (Compare Eq Binary) (col 1 0) (lit (Int (pos 1))) ∷ []) }
{
    match checks.roots.as_slice() {
        [root] => has_number_one(checks.nodes.as_slice(), *root),
        _ => false,
    }
}
