//! The reads and writes of a transaction.

ghost use Rattle.std.specs.Prelude.{◌≡◌, IfOk, map, string_bytes};
ghost use Rattle.client_text.specs.Ops.{ops_of, plan_of};

use crate::ops::read_op;
use basil_types::memory::NoMemory;
use client_link::Op;
use std::alloc::Global;
use std::marker::Model;

/// Reads and writes that are made at most.
const MOST_OPS: usize = 64;

/// Reads and writes in order. Contracts see them as a list.
#[derive(Drop)]
pub struct Plan {
    ops: Vec<Op>,
}

impl Model for Plan {
    ghost use Rattle.std.specs.Prelude.{List};
    ghost use Rattle.client_link.specs.declared.op.Op.{Op};

    ghost Value = { List Op };

    ghost view = { λ p. p.ops.items };
}

impl Plan {
    /// They, lent.
    pub fn ops(&self) -> &[Op]
        ensures { result.now ≡ self.now }
    {
        self.ops.as_slice()
    }
}

/// Those that the arguments spell; none where one spells neither.
fn read_ops(alloc: Global, arguments: &[String]) -> Result<Option<Plan>, NoMemory>
    ensures { IfOk result (λ plan. plan ≡ ops_of (map string_bytes arguments.now)) }
{
    let mut ops = Vec::new(alloc);
    let mut left = arguments;
    while let Some((argument, others)) = left.split_first() {
        match read_op(alloc, argument.as_bytes())? {
            Some(op) => ops.push(op)?,
            None => return Ok(None),
        }
        left = others;
    }
    Ok(Some(Plan { ops }))
}

/// The reads and writes that arguments spell, `r:KEY` and `w:KEY:VALUE`, 1 to 64, with keys and values spelled as in a
/// schedule. None where one is misspelt or out of size, or their number is.
pub fn read_plan(alloc: Global, arguments: &[String]) -> Result<Option<Plan>, NoMemory>
    ensures { IfOk result (λ plan. plan ≡ plan_of (map string_bytes arguments.now)) }
{
    if 1 <= arguments.len() && arguments.len() <= MOST_OPS {
        read_ops(alloc, arguments)
    } else {
        Ok(None)
    }
}
