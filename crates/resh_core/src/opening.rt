//! The opening state of a setup.

ghost use Rattle.std.specs.Prelude.{◌≡◌, ◌==◌, [], cond, length, replicate, IfOk, OnOk};
ghost use Rattle.std.specs.List.{fold};
ghost use Rattle.resh_cells.specs.Cells.{no_client};
ghost use Rattle.resh_chunks.specs.Chunks.{owner_of};
ghost use Rattle.resh_events.specs.Opening as table;
ghost use Rattle.resh_shard.specs.Shards.{with_loaded};
ghost use Rattle.resh_core.specs.Openings.{opening_lane_of};

use crate::lists::{client_count, shard_count};
use resh_cells::{Cells, ClientCell, Clocks, Cluster, Cuts, LaneCell, LinkCell, Sent, ShardCell};
use resh_coord::Coordinator;
use resh_donor::Donor;
use resh_fetcher::Link;
use resh_lane::Lane;
use resh_recip::Recipient;
use resh_rules::Pool;
use resh_setup::Setup;
use resh_shard::{Shard, Which};
use resh_value::{Document, NoMemory, Sequence, ShardId, TEXT_LIMIT};
use std::alloc::Global;

/// Each document with its owner by the old map, and nothing told, read or replied. Want of memory comes too where the
/// setup isn't a valid one.
#[tactic(auto, using(crate::proofs::OpeningLaws::opened))]
pub(crate) fn opening(alloc: Global, setup: &Setup) -> Result<Cluster, NoMemory>
    ensures { IfOk result (λ cluster. cluster ≡ table.opening setup.now) }
{
    let shards = shard_count(setup)?;
    let control = Coordinator::new(alloc, shards)?;
    let shard_cells = shard_list(alloc, setup, shards)?;
    let lanes = lane_rows(alloc, setup, shards)?;
    let links = link_rows(alloc, setup, shards)?;
    let clients = client_list(alloc, setup)?;
    let clocks = clocks(alloc, setup, shards)?;
    Ok(Cluster {
        control,
        shards: shard_cells,
        lanes,
        links,
        clients,
        clocks,
    })
}

#[tactic(auto, using(crate::proofs::ListLaws::each_more))]
fn shard_list(alloc: Global, setup: &Setup, shards: u32) -> Result<Cells<ShardCell>, NoMemory>
    ensures { IfOk result (λ cells. cells ≡ table.each setup.now shards (table.opening_shard setup.now)) }
{
    let mut cells = Vec::new(alloc);
    for shard in 0..shards {
        cells.push(shard_cell(alloc, setup, shard)?)?;
    }
    Ok(Cells::of(cells))
}

fn shard_cell(alloc: Global, setup: &Setup, number: u32) -> Result<ShardCell, NoMemory>
    ensures { IfOk result (λ cell. cell ≡ table.opening_shard setup.now number) }
{
    let old_map = setup.old_map.copy()?;
    let new_map = setup.new_map.copy()?;
    let mut shard = Shard::new(alloc, ShardId(number), old_map, new_map, TEXT_LIMIT);
    load(&mut shard, setup, number)?;
    Ok(ShardCell {
        shard,
        donor: Donor::new(),
        recipient: Recipient::new(),
    })
}

/// Puts the documents of the setup that a shard owns.
fn load(shard: &mut Shard, setup: &Setup, number: u32) -> Result<(), NoMemory>
    ensures { OnOk result (shard.new ≡ fold with_loaded shard.old (table.documents_at setup.now number)) }
{
    for document in setup.documents.as_slice() {
        load_own(shard, setup, number, document)?;
    }
    Ok(())
}

/// Puts a document where the shard owns it.
fn load_own(
    shard: &mut Shard,
    setup: &Setup,
    number: u32,
    document: &Document,
) -> Result<(), NoMemory>
    ensures { OnOk result (shard.new
        ≡ cond (owner_of setup.now.old_map document.now == number) (with_loaded shard.old document.now) shard.old) }
{
    if setup.old_map.owner_of(document).0 != number {
        return Ok(());
    }
    put(shard, document.copy()?)
}

fn put(shard: &mut Shard, document: Document) -> Result<(), NoMemory>
    ensures { OnOk result (shard.new ≡ with_loaded shard.old document) }
{
    if !document.is_whole() {
        return Err(NoMemory);
    }
    shard.load(document)
}

fn lane_rows(alloc: Global, setup: &Setup, shards: u32) -> Result<Cells<Cells<LaneCell>>, NoMemory>
    ensures { IfOk result (λ rows. rows
        ≡ replicate shards (replicate setup.now.lanes (opening_lane_of setup.now shards))) }
{
    let mut rows = Vec::new(alloc);
    for _ in 0..shards {
        rows.push(lane_list(alloc, setup, shards)?)?;
    }
    Ok(Cells::of(rows))
}

fn lane_list(alloc: Global, setup: &Setup, shards: u32) -> Result<Cells<LaneCell>, NoMemory>
    ensures { IfOk result (λ cells. cells ≡ replicate setup.now.lanes (opening_lane_of setup.now shards)) }
{
    let mut cells = Vec::new(alloc);
    for _ in 0..setup.lanes {
        cells.push(lane_cell(alloc, setup, shards)?)?;
    }
    Ok(Cells::of(cells))
}

fn lane_cell(alloc: Global, setup: &Setup, shards: u32) -> Result<LaneCell, NoMemory>
    ensures { IfOk result (λ cell. cell ≡ opening_lane_of setup.now shards) }
{
    let pool = Pool::new(alloc, setup.old_map.copy()?, shards)?;
    let lane = Lane::new(alloc, pool, shards)?;
    Ok(LaneCell { lane })
}

#[tactic(auto, using(crate::proofs::ListLaws::each_more))]
fn link_rows(alloc: Global, setup: &Setup, shards: u32) -> Result<Cells<Cells<LinkCell>>, NoMemory>
    ensures { IfOk result (λ rows. rows
        ≡ table.each setup.now shards (λ r. table.each setup.now shards (table.opening_link setup.now r))) }
{
    let mut rows = Vec::new(alloc);
    for recipient in 0..shards {
        rows.push(link_list(alloc, setup, recipient, shards)?)?;
    }
    Ok(Cells::of(rows))
}

#[tactic(auto, using(crate::proofs::ListLaws::each_more))]
fn link_list(
    alloc: Global,
    setup: &Setup,
    recipient: u32,
    shards: u32,
) -> Result<Cells<LinkCell>, NoMemory>
    ensures { IfOk result (λ cells. cells ≡ table.each setup.now shards (table.opening_link setup.now recipient)) }
{
    let mut cells = Vec::new(alloc);
    for donor in 0..shards {
        cells.push(link_cell(alloc, setup, recipient, donor)?)?;
    }
    Ok(Cells::of(cells))
}

fn link_cell(alloc: Global, setup: &Setup, recipient: u32, donor: u32) -> Result<LinkCell, NoMemory>
    ensures { IfOk result (λ cell. cell ≡ table.opening_link setup.now recipient donor) }
{
    if setup.lanes == 0 || setup.batch == 0 {
        return Err(NoMemory);
    }
    let link = Link::new(
        alloc,
        ShardId(recipient),
        ShardId(donor),
        setup.lanes,
        setup.batch,
    )?;
    let sent = nothing_sent(alloc, setup.lanes)?;
    Ok(LinkCell { link, sent })
}

fn nothing_sent(alloc: Global, lanes: u32) -> Result<Sent, NoMemory>
    ensures { IfOk result (λ sent. sent ≡ replicate lanes []) }
{
    let mut sent = Vec::new(alloc);
    for _ in 0..lanes {
        sent.push(Cuts::new(alloc))?;
    }
    Ok(Cells::of(sent))
}

fn client_list(alloc: Global, setup: &Setup) -> Result<Cells<ClientCell>, NoMemory>
    ensures { IfOk result (λ cells. cells ≡ replicate (length setup.now.clients) no_client) }
{
    let mut cells = Vec::new(alloc);
    for _ in 0..client_count(setup)? {
        cells.push(ClientCell {
            knows: Which::Old,
            replies: Sequence::new(alloc),
        })?;
    }
    Ok(Cells::of(cells))
}

fn clocks(alloc: Global, setup: &Setup, shards: u32) -> Result<Clocks, NoMemory>
    requires { shards ≡ length setup.now.shards }
    ensures { IfOk result (λ clocks. clocks ≡ table.opening_clocks setup.now) }
{
    let clients = client_count(setup)?;
    Ok(Clocks {
        control: 0,
        shards: zeros(alloc, shards)?,
        lanes: zero_rows(alloc, shards, setup.lanes)?,
        links: zero_rows(alloc, shards, shards)?,
        clients: zeros(alloc, clients)?,
    })
}

fn zero_rows(alloc: Global, rows: u32, count: u32) -> Result<Cells<Cells<u64>>, NoMemory>
    ensures { IfOk result (λ cells. cells ≡ replicate rows (replicate count 0)) }
{
    let mut cells = Vec::new(alloc);
    for _ in 0..rows {
        cells.push(zeros(alloc, count)?)?;
    }
    Ok(Cells::of(cells))
}

fn zeros(alloc: Global, count: u32) -> Result<Cells<u64>, NoMemory>
    ensures { IfOk result (λ cells. cells ≡ replicate count 0) }
{
    Ok(Cells::of(vec![in alloc; 0u64; count as usize]?))
}
