//! The text of a setup: its cluster file.

ghost use Rattle.std.specs.Prelude.{◌≡◌, [], ◌∷◌, ◌++◌, map, codes, decimal, slice_index_or, IfOk, OnOk};
ghost use Rattle.json.specs.Token.{key, number};
ghost use Rattle.resh_value.specs.Text.{array_tokens, document_tokens, tokens_of};
ghost use Rattle.resh_gen.specs.Generated.{generated};
ghost use Rattle.resh_gen.specs.SetupText.{bound_tokens, chunk_tokens, client_tokens, name_tokens, names_tokens};
ghost use Rattle.resh_gen.specs.SetupText.{setup_text, setup_tokens};

use crate::command_text::write_commands;
use crate::setup::generate;
use json::Writer;
use resh_chunks::{Bound, ChunkMap, ChunkRow, Key};
use resh_setup::{Client, Clients, Setup};
use resh_value::{Documents, Names, NoMemory, Words};
use std::alloc::Global;

/// The cluster file of a number: the text of the setup that `generate` gives.
pub fn generated_text(alloc: Global, number: u32) -> Result<Vec<u8>, NoMemory>
    ensures { IfOk result (λ bytes. bytes.items ≡ setup_text (generated number)) }
{
    let setup = generate(alloc, number)?;
    setup_text(alloc, &setup)
}

/// The cluster file of a setup without steps and plan, as one line of compact JSON with names in byte order.
pub fn setup_text(alloc: Global, setup: &Setup) -> Result<Vec<u8>, NoMemory>
    ensures { IfOk result (λ bytes. bytes.items ≡ setup_text setup.now) }
{
    let mut writer = Writer::new(Vec::new(alloc));
    write_setup(alloc, setup, &mut writer)?;
    let mut text = writer.into_inner();
    text.push(b'\n')?;
    Ok(text)
}

fn write_setup(alloc: Global, setup: &Setup, writer: &mut Writer) -> Result<(), NoMemory>
    ensures tokens { OnOk result (writer.new.tokens ≡ writer.old.tokens ++ setup_tokens setup.now) }
    ensures before { writer.new.before ≡ writer.old.before }
{
    writer.begin_object()?;
    write_number("batch", setup.batch, writer)?;
    writer.key("clients")?;
    write_clients(alloc, &setup.clients, writer)?;
    writer.key("documents")?;
    write_documents(&setup.documents, writer)?;
    write_number("lanes", setup.lanes, writer)?;
    write_rows("newChunks", &setup.shards, setup.new_map.rows(), writer)?;
    write_key("newKey", &setup.new_map, writer)?;
    write_rows("oldChunks", &setup.shards, setup.old_map.rows(), writer)?;
    write_key("oldKey", &setup.old_map, writer)?;
    write_names("shards", &setup.shards, writer)?;
    write_number("version", 1, writer)?;
    writer.end_object()?;
    Ok(())
}

fn write_number(name: &str, n: u32, writer: &mut Writer) -> Result<(), NoMemory>
    ensures tokens { OnOk result
        (writer.new.tokens ≡ writer.old.tokens ++ key name.now ∷ number (decimal n) ∷ []) }
    ensures before { writer.new.before ≡ writer.old.before }
{
    writer.key(name)?;
    writer.u64(n as u64)?;
    Ok(())
}

/// Writes the names of a map's key.
fn write_key(name: &str, map: &ChunkMap, writer: &mut Writer) -> Result<(), NoMemory>
    ensures tokens { OnOk result
        (writer.new.tokens ≡ writer.old.tokens ++ key name.now ∷ names_tokens map.now.pattern) }
    ensures before { writer.new.before ≡ writer.old.before }
{
    write_names(name, map.pattern().names(), writer)
}

fn write_names(name: &str, names: &Names, writer: &mut Writer) -> Result<(), NoMemory>
    ensures tokens { OnOk result
        (writer.new.tokens ≡ writer.old.tokens ++ key name.now ∷ names_tokens names.now) }
    ensures before { writer.new.before ≡ writer.old.before }
{
    writer.key(name)?;
    writer.begin_array()?;
    for name in names.as_slice() {
        writer.string(name.as_str())?;
    }
    writer.end_array()?;
    Ok(())
}

fn write_clients(alloc: Global, clients: &Clients, writer: &mut Writer) -> Result<(), NoMemory>
    ensures tokens { OnOk result
        (writer.new.tokens ≡ writer.old.tokens ++ array_tokens (map client_tokens clients.now)) }
    ensures before { writer.new.before ≡ writer.old.before }
{
    writer.begin_array()?;
    for client in clients.as_slice() {
        write_client(alloc, client, writer)?;
    }
    writer.end_array()?;
    Ok(())
}

fn write_client(alloc: Global, client: &Client, writer: &mut Writer) -> Result<(), NoMemory>
    ensures tokens { OnOk result (writer.new.tokens ≡ writer.old.tokens ++ client_tokens client.now) }
    ensures before { writer.new.before ≡ writer.old.before }
{
    writer.begin_object()?;
    writer.key("commands")?;
    write_commands(alloc, &client.commands, writer)?;
    writer.key("name")?;
    write_name(&client.name, writer)?;
    writer.end_object()?;
    Ok(())
}

fn write_name(name: &Words, writer: &mut Writer) -> Result<(), NoMemory>
    ensures tokens { OnOk result (writer.new.tokens ≡ writer.old.tokens ++ name_tokens name.now) }
    ensures before { writer.new.before ≡ writer.old.before }
{
    writer.string(name.as_str())?;
    Ok(())
}

fn write_documents(documents: &Documents, writer: &mut Writer) -> Result<(), NoMemory>
    ensures tokens { OnOk result
        (writer.new.tokens ≡ writer.old.tokens ++ array_tokens (map document_tokens documents.now)) }
    ensures before { writer.new.before ≡ writer.old.before }
{
    writer.begin_array()?;
    for document in documents.as_slice() {
        document.write(writer)?;
    }
    writer.end_array()?;
    Ok(())
}

fn write_rows(
    name: &str,
    shards: &Names,
    rows: &[ChunkRow],
    writer: &mut Writer,
) -> Result<(), NoMemory>
    ensures tokens { OnOk result
        (writer.new.tokens
        ≡ writer.old.tokens ++ key name.now ∷ array_tokens (map (chunk_tokens shards.now) rows.now)) }
    ensures before { writer.new.before ≡ writer.old.before }
{
    writer.key(name)?;
    writer.begin_array()?;
    for row in rows {
        write_row(shards, row, writer)?;
    }
    writer.end_array()?;
    Ok(())
}

fn write_row(shards: &Names, row: &ChunkRow, writer: &mut Writer) -> Result<(), NoMemory>
    ensures tokens { OnOk result (writer.new.tokens ≡ writer.old.tokens ++ chunk_tokens shards.now row.now) }
    ensures before { writer.new.before ≡ writer.old.before }
{
    writer.begin_object()?;
    writer.key("max")?;
    write_bound(&row.max, writer)?;
    writer.key("min")?;
    write_bound(&row.min, writer)?;
    writer.key("shard")?;
    writer.string(name_at(shards.as_slice(), row.shard.0 as usize))?;
    writer.end_object()?;
    Ok(())
}

/// The name at a place, or an empty one where there is none.
fn name_at(names: &[Words], place: usize) -> &str
    ensures { result.now ≡ slice_index_or names.now place [] }
{
    match names.get(place) {
        Some(name) => name.as_str(),
        None => "",
    }
}

fn write_bound(bound: &Bound, writer: &mut Writer) -> Result<(), NoMemory>
    ensures tokens { OnOk result (writer.new.tokens ≡ writer.old.tokens ++ bound_tokens bound.now) }
    ensures before { writer.new.before ≡ writer.old.before }
{
    match bound {
        Bound::Min => Ok(writer.string("MinKey")?),
        Bound::At(values) => write_values(values, writer),
        Bound::Max => Ok(writer.string("MaxKey")?),
    }
}

fn write_values(values: &Key, writer: &mut Writer) -> Result<(), NoMemory>
    ensures tokens { OnOk result
        (writer.new.tokens ≡ writer.old.tokens ++ array_tokens (map tokens_of values.now)) }
    ensures before { writer.new.before ≡ writer.old.before }
{
    writer.begin_array()?;
    for value in values.as_slice() {
        value.write(writer)?;
    }
    writer.end_array()?;
    Ok(())
}
