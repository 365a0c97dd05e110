//! How a run ended, in words.

ghost use Rattle.std.specs.Prelude.{◌≡◌, ◌++◌, IfOk};
ghost use Rattle.resh_report.specs.Lines.{names_of};
ghost use Rattle.resh_report.specs.Ends.{end_text, cause_text, node_text, why_text};

use crate::text::{append, append_client_name, append_name, append_spaced, append_value};
use resh_coord::{Cause, End, Node, Why};
use resh_setup::Client;
use resh_value::{NoMemory, Words};

/// Writes how a run ended, with its cause.
pub(crate) fn append_end(
    out: Vec<u8>,
    shards: &[Words],
    clients: &[Client],
    end: &End,
) -> Result<Vec<u8>, NoMemory>
    ensures { IfOk result (λ bytes. bytes.items ≡ out.items ++ end_text shards.now (names_of clients.now) end.now) }
{
    match end {
        End::Committed => append(out, "committed"),
        End::Aborted(cause) => append_cause(append(out, "aborted: ")?, shards, clients, cause),
    }
}

fn append_cause(
    out: Vec<u8>,
    shards: &[Words],
    clients: &[Client],
    cause: &Cause,
) -> Result<Vec<u8>, NoMemory>
    ensures { IfOk result (λ bytes.
        bytes.items ≡ out.items ++ cause_text shards.now (names_of clients.now) cause.now) }
{
    match cause {
        Cause::Clash { shard, id } => {
            let out = append_name(append(out, "clash ")?, shards, shard.0 as usize)?;
            append_value(append(out, " ")?, id)
        }
        Cause::Asked { client, number } => {
            let out = append_client_name(append(out, "asked ")?, clients, *client as usize)?;
            append_spaced(out, u64::from(*number))
        }
        Cause::Failed { node, cause } => {
            let out = append_node(append(out, "failed ")?, shards, *node)?;
            append(append(out, " ")?, why_text(*cause))
        }
        Cause::NoMemory => append(out, "no memory"),
    }
}

fn append_node(out: Vec<u8>, shards: &[Words], node: Node) -> Result<Vec<u8>, NoMemory>
    ensures { IfOk result (λ bytes. bytes.items ≡ out.items ++ node_text shards.now node) }
{
    match node {
        Node::Coordinator => append(out, "coordinator"),
        Node::Shard(shard) => append_name(out, shards, shard.0 as usize),
    }
}

pub(crate) fn why_text(why: Why) -> &'static str
    ensures { result.now ≡ why_text why }
{
    match why {
        Why::Commit => "commit",
        Why::Link => "link",
        Why::Crashes => "crashes",
    }
}
