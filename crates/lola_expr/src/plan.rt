//! The code of a specification's eval clauses.

ghost use Rattle.std.specs.Prelude.{◌≡◌, ◌<◌, Some, IfOk, length, slice_get};
ghost use Rattle.lola_expr.specs.Code.{code_of};
ghost use Rattle.lola_expr.specs.Plans.{IsCodeIn, IsCodeOf, IsEvalCode, first_of};

use crate::compile::compile;
use crate::instr::Instr;
use lola_model::expr::Expr;
use lola_model::spec::{Clause, Spec};
use lola_value::text::Memory;
use std::alloc::Global;
use std::marker::Model;
use std::snapshot::Snapshot;

/// The instructions of an expression. Contracts see these, from the first to the last.
#[derive(Drop)]
pub struct ExprCode {
    instrs: Vec<Instr>,
}

impl Model for ExprCode {
    ghost use Rattle.std.specs.Prelude.{List};
    ghost use Rattle.lola_expr.specs.declared.instr.Instr.{Instr};

    ghost Value = { List Instr };

    ghost view = { λ c. c.instrs.items };
}

impl ExprCode {
    /// The instructions.
    pub fn as_slice(&self) -> &[Instr]
        ensures { result.now ≡ self.now }
    {
        self.instrs.as_slice()
    }
}

/// The code of what an eval clause asks: of its condition, and of its value. None stands where there is no expression.
#[derive(Drop)]
pub struct EvalCode {
    pub when: Option<ExprCode>,
    pub with: Option<ExprCode>,
}

// The code of an expression.
fn code_for(alloc: Global, expr: &Expr) -> Result<ExprCode, Memory>
    ensures { IfOk result (λ code. code ≡ code_of expr.now) }
{
    let instrs = compile(alloc, expr)?;
    Ok(ExprCode { instrs })
}

// The code of a condition, if there is one.
fn when_code(alloc: Global, when: &Option<Expr>) -> Result<Option<ExprCode>, Memory>
    ensures { IfOk result (IsCodeOf when.now) }
{
    match when {
        Some(expr) => Ok(Some(code_for(alloc, expr)?)),
        None => Ok(None),
    }
}

// The code of the first of these expressions, if there is one.
fn first_code(alloc: Global, exprs: &[Expr]) -> Result<Option<ExprCode>, Memory>
    ensures { IfOk result (IsCodeOf (first_of exprs.now)) }
{
    match exprs.split_first() {
        Some((expr, _)) => Ok(Some(code_for(alloc, expr)?)),
        None => Ok(None),
    }
}

// The code of an eval clause, if there is one.
fn eval_code(alloc: Global, clause: &Option<Clause>) -> Result<EvalCode, Memory>
    ensures { IfOk result (IsEvalCode clause.now) }
{
    match clause {
        Some(clause) => {
            let when = when_code(alloc, &clause.when)?;
            let with = first_code(alloc, clause.with.as_slice())?;
            Ok(EvalCode { when, with })
        }
        None => Ok(EvalCode {
            when: None,
            with: None,
        }),
    }
}

/// The code of the eval clauses of a specification's streams. Contracts see the specification that it is the code of, so a code and a
/// plan that belong together are equal in that.
#[derive(Drop)]
pub struct PlanCode {
    of: Snapshot<Spec>,
    evals: Vec<EvalCode>,
}

impl Model for PlanCode {
    ghost use Rattle.lola_model.specs.declared.spec.Spec.{Spec};
    ghost use Rattle.lola_model.specs.contracts.expr.Expr as expr;
    ghost use Rattle.lola_model.specs.contracts.spec.Formula as formula;
    ghost use Rattle.std.specs.Coded.{codes};
    ghost use Rattle.lola_expr.specs.Plans.{AreCodes};

    ghost Value = { Spec };

    ghost coded = { Prim.hlevel (codes, expr.the_row.coded, formula.the_row.coded) };

    ghost view = { λ p. p.of.value };

    ghost invariant = { λ p. AreCodes p.of.value.streams p.evals.items };
}

impl PlanCode {
    /// The code of a specification.
    pub fn create(alloc: Global, spec: &Spec) -> Result<PlanCode, Memory>
        ensures { IfOk result (λ code. code ≡ spec.now) }
    {
        let mut evals = Vec::new(alloc);
        for stream in spec.streams.as_slice() {
            evals.push(eval_code(alloc, &stream.eval)?)?;
        }
        Ok(PlanCode {
            of: Snapshot::of(spec),
            evals,
        })
    }

    /// The code of the eval clause of a stream.
    pub fn eval_of(&self, stream: usize) -> &EvalCode
        requires { stream < length self.now.streams }
        ensures { IsCodeIn (slice_get self.now.streams stream) result.now }
    {
        &self.evals[stream]
    }
}
