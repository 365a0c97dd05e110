//! The text of commands.

ghost use Rattle.std.specs.Prelude.{◌≡◌, [], ◌∷◌, ◌++◌, map, flat_map, filter, OnOk};
ghost use Rattle.std.specs.List.{list_any};
ghost use Rattle.resh_gen.specs.CommandTokens.{action_tokens, command_tokens, is_of, operand_tokens, operator_name};
ghost use Rattle.resh_gen.specs.CommandTokens.{operator_names, operator_tokens, update_tokens};
ghost use Rattle.json.specs.Token.{key};
ghost use Rattle.resh_value.specs.Text.{array_tokens, document_tokens};

use json::Writer;
use resh_command::{Command, Commands};
use resh_filter::Filter;
use resh_ops::{Action, Operator, Side, Update, dotted};
use resh_value::NoMemory;
use std::alloc::Global;

/// Writes a list of commands.
pub(crate) fn write_commands(
    alloc: Global,
    commands: &Commands,
    writer: &mut Writer,
) -> Result<(), NoMemory>
    ensures tokens { OnOk result
        (writer.new.tokens ≡ writer.old.tokens ++ array_tokens (map command_tokens commands.now)) }
    ensures before { writer.new.before ≡ writer.old.before }
{
    writer.begin_array()?;
    for command in commands.as_slice() {
        write_command(alloc, command, writer)?;
    }
    writer.end_array()?;
    Ok(())
}

fn write_command(alloc: Global, command: &Command, writer: &mut Writer) -> Result<(), NoMemory>
    ensures tokens { OnOk result (writer.new.tokens ≡ writer.old.tokens ++ command_tokens command.now) }
    ensures before { writer.new.before ≡ writer.old.before }
{
    writer.begin_object()?;
    match command {
        Command::Insert(document) => {
            writer.key("insert")?;
            document.write(writer)?;
        }
        Command::Update { filter, update } => {
            write_filter("update", filter, writer)?;
            writer.key("with")?;
            write_update(alloc, update.actions(), writer)?;
        }
        Command::Delete { filter } => write_filter("delete", filter, writer)?,
        Command::Find { filter } => write_filter("find", filter, writer)?,
        Command::Count { filter } => write_filter("count", filter, writer)?,
        Command::Abort => {
            writer.key("abort")?;
            writer.boolean(true)?;
        }
    }
    writer.end_object()?;
    Ok(())
}

/// Writes a member that is a filter.
fn write_filter(name: &str, filter: &Filter, writer: &mut Writer) -> Result<(), NoMemory>
    ensures tokens { OnOk result
        (writer.new.tokens ≡ writer.old.tokens ++ key name.now ∷ document_tokens filter.now) }
    ensures before { writer.new.before ≡ writer.old.before }
{
    writer.key(name)?;
    filter.fields().write(writer)
}

fn write_update(alloc: Global, actions: &[Action], writer: &mut Writer) -> Result<(), NoMemory>
    ensures tokens { OnOk result (writer.new.tokens ≡ writer.old.tokens ++ update_tokens actions.now) }
    ensures before { writer.new.before ≡ writer.old.before }
{
    writer.begin_object()?;
    if actions.is_empty() {
        writer.key("$set")?;
        writer.begin_object()?;
        writer.end_object()?;
        writer.end_object()?;
        return Ok(());
    }
    write_operators(alloc, actions, writer)?;
    writer.end_object()?;
    Ok(())
}

/// Writes each operator that an update has, in byte order of the names.
fn write_operators(alloc: Global, actions: &[Action], writer: &mut Writer) -> Result<(), NoMemory>
    ensures tokens { OnOk result
        (writer.new.tokens ≡ writer.old.tokens ++ flat_map (operator_tokens actions.now) operator_names) }
    ensures before { writer.new.before ≡ writer.old.before }
{
    write_operator(alloc, "$addToSet", actions, writer)?;
    write_operator(alloc, "$inc", actions, writer)?;
    write_operator(alloc, "$max", actions, writer)?;
    write_operator(alloc, "$min", actions, writer)?;
    write_operator(alloc, "$mul", actions, writer)?;
    write_operator(alloc, "$pop", actions, writer)?;
    write_operator(alloc, "$push", actions, writer)?;
    write_operator(alloc, "$rename", actions, writer)?;
    write_operator(alloc, "$set", actions, writer)?;
    write_operator(alloc, "$unset", actions, writer)?;
    Ok(())
}

/// Writes an operator's actions, or nothing where it has none.
fn write_operator(
    alloc: Global,
    name: &str,
    actions: &[Action],
    writer: &mut Writer,
) -> Result<(), NoMemory>
    ensures tokens { OnOk result (writer.new.tokens ≡ writer.old.tokens ++ operator_tokens actions.now name.now) }
    ensures before { writer.new.before ≡ writer.old.before }
{
    if !has_operator(name, actions) {
        return Ok(());
    }
    writer.key(name)?;
    writer.begin_object()?;
    write_actions(alloc, name, actions, writer)?;
    writer.end_object()?;
    Ok(())
}

fn has_operator(name: &str, actions: &[Action]) -> bool
    ensures { result ≡ list_any (is_of name.now) actions.now }
{
    actions.iter().any(|action| is_of(name, action))
}

fn is_of(name: &str, action: &Action) -> bool
    ensures { result ≡ is_of name.now action.now }
{
    name.as_bytes() == operator_name(&action.operator).as_bytes()
}

/// Writes the members of those actions that have this operator.
fn write_actions(
    alloc: Global,
    name: &str,
    actions: &[Action],
    writer: &mut Writer,
) -> Result<(), NoMemory>
    ensures tokens { OnOk result
        (writer.new.tokens ≡ writer.old.tokens ++ flat_map action_tokens (filter (is_of name.now) actions.now)) }
    ensures before { writer.new.before ≡ writer.old.before }
{
    for action in actions {
        if is_of(name, action) {
            write_action(alloc, action, writer)?;
        }
    }
    Ok(())
}

fn write_action(alloc: Global, action: &Action, writer: &mut Writer) -> Result<(), NoMemory>
    ensures tokens { OnOk result (writer.new.tokens ≡ writer.old.tokens ++ action_tokens action.now) }
    ensures before { writer.new.before ≡ writer.old.before }
{
    let path = dotted(alloc, action.path.as_slice())?;
    writer.key(path.as_str())?;
    write_operand(alloc, &action.operator, writer)
}

fn operator_name(operator: &Operator) -> &'static str
    ensures { result.now ≡ operator_name operator.now }
{
    match operator {
        Operator::AddToSet(_) => "$addToSet",
        Operator::Inc(_) => "$inc",
        Operator::Max(_) => "$max",
        Operator::Min(_) => "$min",
        Operator::Mul(_) => "$mul",
        Operator::Pop(_) => "$pop",
        Operator::Push(_) => "$push",
        Operator::Rename(_) => "$rename",
        Operator::Set(_) => "$set",
        Operator::Unset => "$unset",
    }
}

fn write_operand(alloc: Global, operator: &Operator, writer: &mut Writer) -> Result<(), NoMemory>
    ensures tokens { OnOk result (writer.new.tokens ≡ writer.old.tokens ++ operand_tokens operator.now) }
    ensures before { writer.new.before ≡ writer.old.before }
{
    match operator {
        Operator::AddToSet(value) => value.write(writer),
        Operator::Inc(n) => Ok(writer.i64(*n)?),
        Operator::Max(value) => value.write(writer),
        Operator::Min(value) => value.write(writer),
        Operator::Mul(n) => Ok(writer.i64(*n)?),
        Operator::Pop(Side::First) => Ok(writer.i64(-1)?),
        Operator::Pop(Side::Last) => Ok(writer.i64(1)?),
        Operator::Push(value) => value.write(writer),
        Operator::Rename(target) => {
            let path = dotted(alloc, target.as_slice())?;
            Ok(writer.string(path.as_str())?)
        }
        Operator::Set(value) => value.write(writer),
        Operator::Unset => Ok(writer.string("")?),
    }
}
