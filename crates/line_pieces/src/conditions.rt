//! The written form of conditions.
use crate::form::{WriteForm, end_form, put_argument, start_form, write_with_one};
use std::alloc::{AllocError, Global};
use vo_spec::{Cmp, Cond, Operand, Ref};

impl WriteForm for Cond {
    fn write_form(&self, alloc: Global, out: &mut String) -> Result<(), AllocError> {
        write_condition(alloc, out, self)
    }
}

#[cycle(write_condition)]
fn write_condition(alloc: Global, out: &mut String, cond: &Cond) -> Result<(), AllocError> {
    match cond {
        Cond::All(parts) => write_parts(alloc, out, "all", parts.as_slice()),
        Cond::Any(parts) => write_parts(alloc, out, "any", parts.as_slice()),
        Cond::Not(part) => write_negated(alloc, out, part),
        Cond::Test { left, op, right } => write_test(alloc, out, left, *op, right),
        Cond::IsNull { left, negated } => write_with_one(alloc, out, null_word(*negated), left),
    }
}

#[cycle(write_condition)]
fn write_parts(
    alloc: Global,
    out: &mut String,
    word: &str,
    parts: &[Cond],
) -> Result<(), AllocError> {
    start_form(out, word)?;
    for part in parts {
        out.push(' ')?;
        write_condition(alloc, out, part)?;
    }
    end_form(out)
}

#[cycle(write_condition)]
fn write_negated(alloc: Global, out: &mut String, part: &Cond) -> Result<(), AllocError> {
    start_form(out, "not")?;
    out.push(' ')?;
    write_condition(alloc, out, part)?;
    end_form(out)
}

fn write_test(
    alloc: Global,
    out: &mut String,
    left: &Ref,
    op: Cmp,
    right: &Operand,
) -> Result<(), AllocError> {
    start_form(out, sign(op))?;
    put_argument(alloc, out, left)?;
    put_argument(alloc, out, right)?;
    end_form(out)
}

fn null_word(negated: bool) -> &'static str {
    if negated { "is_not_null" } else { "is_null" }
}

fn sign(op: Cmp) -> &'static str {
    match op {
        Cmp::Eq => "=",
        Cmp::Ne => "<>",
        Cmp::Lt => "<",
        Cmp::Le => "<=",
        Cmp::Gt => ">",
        Cmp::Ge => ">=",
    }
}

impl WriteForm for Operand {
    fn write_form(&self, alloc: Global, out: &mut String) -> Result<(), AllocError> {
        match self {
            Operand::Ref(reference) => reference.write_form(alloc, out),
            Operand::Literal(value) => value.write_form(alloc, out),
        }
    }
}
