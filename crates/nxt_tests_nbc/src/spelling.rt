// Programs as they are told in the tables of cases.

use nxt_model::nbc::{NbcArg, NbcBase, NbcBlock, NbcProgram, NbcStart, NbcStatement, NbcType};
use std::alloc::Global;
use std::test::Fail;

fn text(bytes: &[u8]) -> &str {
    str::from_utf8(bytes).unwrap_or("(no text)")
}

fn type_name(alloc: Global, of: NbcType) -> Result<String, Fail> {
    let mut told = match of.base {
        NbcBase::Number(kind) => format!(in alloc; "{kind:?}")?,
        NbcBase::Mutex => format!(in alloc; "Mutex")?,
        NbcBase::Struct(position) => format!(in alloc; "#{position}")?,
    };
    for _ in 0..of.arrays {
        told.push_str("[]")?;
    }
    Ok(told)
}

fn start(alloc: Global, start: &NbcStart) -> Result<String, Fail> {
    Ok(match start {
        NbcStart::Zero => String::new(alloc),
        NbcStart::Num(z) => format!(in alloc; " {z}")?,
        NbcStart::List(zs) => format!(in alloc; " {:?}", zs.as_slice())?,
        NbcStart::Text(bytes) => format!(in alloc; " '{}'", text(bytes.as_slice()))?,
    })
}

fn arg(alloc: Global, arg: &NbcArg) -> Result<String, Fail> {
    Ok(match arg {
        NbcArg::Left => format!(in alloc; " -")?,
        NbcArg::Var(variable, path) => format!(in alloc; " v{variable}{:?}", path.as_slice())?,
        NbcArg::Number(z) => format!(in alloc; " {z}")?,
        NbcArg::Text(bytes) => format!(in alloc; " '{}'", text(bytes.as_slice()))?,
        NbcArg::Imm(n) => format!(in alloc; " i{n}")?,
        NbcArg::Block(number) => format!(in alloc; " b{number}")?,
        NbcArg::Back(number) => format!(in alloc; " r{number}")?,
        NbcArg::Jump(place) => format!(in alloc; " to {place}")?,
    })
}

fn statement(alloc: Global, statement: &NbcStatement) -> Result<String, Fail> {
    let mut told = format!(in alloc;
        "{} {} {:?}",
        statement.line,
        statement.op.name(),
        statement.cmp
    )?;
    for one in statement.args.as_slice() {
        told.push_str(arg(alloc, one)?.as_str())?;
    }
    told.push_str("; ")?;
    Ok(told)
}

fn block(alloc: Global, block: &NbcBlock) -> Result<String, Fail> {
    let kind = if block.subroutine {
        "subroutine"
    } else {
        "thread"
    };
    let mut told = format!(in alloc;
        "{kind} after {} lowers {:?}: ",
        block.fire,
        block.dependents.as_slice()
    )?;
    for one in block.body.as_slice() {
        told.push_str(statement(alloc, one)?.as_str())?;
    }
    Ok(told)
}

/// The structs of a program by the types of their members, its variables, and its blocks with their statements.
pub(crate) fn program(alloc: Global, program: &NbcProgram) -> Result<String, Fail> {
    let mut told = String::new(alloc);
    for one in program.structs.as_slice() {
        told.push_str("struct")?;
        for member in one.members.as_slice() {
            told.push_str(format!(in alloc; " {}", type_name(alloc, *member)?)?.as_str())?;
        }
        told.push_str("; ")?;
    }
    for var in program.vars.as_slice() {
        let of = type_name(alloc, var.shape)?;
        told.push_str(format!(in alloc; "var {of}{}; ", start(alloc, &var.start)?)?.as_str())?;
    }
    for one in program.blocks.as_slice() {
        told.push_str(block(alloc, one)?.as_str())?;
    }
    Ok(told)
}
