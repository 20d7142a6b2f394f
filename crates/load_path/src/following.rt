//! Where links lead.
ghost use Rattle.std.specs.Prelude.{◌≡◌, IfOk, OnErr};
ghost use Rattle.std.specs.Option.{option_copied};
ghost use Rattle.load_path.specs.Search.{Finds, each_once, look, giving};
ghost use Rattle.load_path.specs.Follow.{is_null, at_file, chain, chain_from, end_of, follow};

use crate::cells::Cells;
use link_tree::{Contents, Entry, Target, Tree, TreePath, canonical};
use std::alloc::{AllocError, Global};

/// The maximum number of links that are followed.
const MAX_LINKS: u8 = 8;

/// Where a path leads.
#[derive(Debug, Drop)]
pub enum End {
    /// Nothing is at the path.
    Missing,
    /// To `/dev/null` or to an empty file.
    Null,
    /// To a file that isn't empty.
    File(TreePath),
    /// Nowhere: this link, the last one that was followed, leads to no entry or has a target that
    /// is no path, or is the eighth and leads to another link.
    Dangling(TreePath),
}

/// Where a path leads, and the paths that were looked at, each listed once.
#[derive(Debug, Drop)]
pub struct Trail {
    pub end: End,
    pub cells: Cells,
}

/// Where the links that begin at an entry end.
#[derive(Debug, Drop)]
pub(crate) enum ChainEnd {
    /// At `/dev/null` or at an empty file.
    Null,
    /// At a file, with the last link, or with the file's own path if there is no link.
    File(TreePath, TreePath),
    /// At this link.
    Dangling(TreePath),
}

/// Where a path leads by at most eight links: systemd.unit(5), "Unit File Load Path". Each path
/// that is looked at is listed, even if nothing is there, but not `/dev/null`. Fails only if memory
/// runs out.
pub fn follow(alloc: Global, tree: &Tree, path: &TreePath) -> Result<Trail, AllocError>
    ensures end { IfOk result (λ trail. trail.end ≡ (follow path.now).conclusion tree.now) }
    ensures cells { IfOk result (λ trail. trail.cells ≡ each_once ((follow path.now).cells tree.now)) }
{
    let mut cells = Cells::new(alloc);
    let end = end_from(alloc, tree, path, &mut cells)?;
    Ok(Trail {
        end,
        cells: cells.each_once()?,
    })
}

/// Where a path leads, as in `follow`. The paths that are looked at are added to these. If memory
/// runs out, they stay as they were.
pub fn follow_into(
    alloc: Global,
    tree: &Tree,
    path: &TreePath,
    cells: &mut Cells,
) -> Result<End, AllocError>
    ensures ok { IfOk result (Finds tree.now (follow path.now) cells.old cells.new) }
    ensures err { OnErr result (cells.new ≡ cells.old) }
{
    let mut more = Cells::new(alloc);
    let end = end_from(alloc, tree, path, &mut more)?;
    cells.append(more)?;
    Ok(end)
}

/// Where the entry at a path leads, as in `follow`. The paths to which links lead are added to
/// these; the path itself is not looked at. If memory runs out, they stay as they were.
pub fn follow_entry_into(
    alloc: Global,
    tree: &Tree,
    path: &TreePath,
    entry: &Entry,
    cells: &mut Cells,
) -> Result<End, AllocError>
    ensures ok { IfOk result (Finds tree.now (giving (chain_from path.now entry.now) end_of) cells.old cells.new) }
    ensures err { OnErr result (cells.new ≡ cells.old) }
{
    let mut more = Cells::new(alloc);
    let end = end_of(chain_from(alloc, tree, path, entry, &mut more)?);
    cells.append(more)?;
    Ok(end)
}

#[tactic(auto, unfolding(crate::specs::Follow::follow))]
fn end_from(
    alloc: Global,
    tree: &Tree,
    path: &TreePath,
    cells: &mut Cells,
) -> Result<End, AllocError>
    ensures { IfOk result (Finds tree.now (follow path.now) cells.old cells.new) }
{
    match look(tree, path, cells)? {
        None => Ok(End::Missing),
        Some(entry) => Ok(end_of(chain_from(alloc, tree, path, entry, cells)?)),
    }
}

fn end_of(chain: ChainEnd) -> End
    ensures { result ≡ end_of chain }
{
    match chain {
        ChainEnd::Null => End::Null,
        ChainEnd::File(path, _link) => End::File(path),
        ChainEnd::Dangling(link) => End::Dangling(link),
    }
}

/// What is at the path.
pub(crate) fn look<'a>(
    tree: &'a Tree,
    path: &TreePath,
    cells: &mut Cells,
) -> Result<Option<&'a Entry>, AllocError>
    ensures { IfOk result (λ entry. Finds tree.now (look path.now) cells.old cells.new (option_copied entry)) }
{
    cells.push(path.copy()?)?;
    Ok(tree.get(path))
}

/// Where the links that begin at this entry end.
pub(crate) fn chain_from(
    alloc: Global,
    tree: &Tree,
    path: &TreePath,
    entry: &Entry,
    cells: &mut Cells,
) -> Result<ChainEnd, AllocError>
    ensures { IfOk result (Finds tree.now (chain_from path.now entry.now) cells.old cells.new) }
{
    match entry {
        Entry::File(contents) => at_file(contents, path.copy()?, path),
        Entry::Link(target) => chain(alloc, tree, MAX_LINKS, path, path, target, cells),
    }
}

fn at_file(contents: &Contents, path: TreePath, link: &TreePath) -> Result<ChainEnd, AllocError>
    ensures { IfOk result (λ chain. chain ≡ at_file contents.now path link.now) }
{
    match contents.bytes() {
        [] => Ok(ChainEnd::Null),
        _ => Ok(ChainEnd::File(path, link.copy()?)),
    }
}

fn is_null(path: &TreePath) -> bool
    ensures { result ≡ is_null path.now }
{
    path.text() == b"/dev/null".as_slice()
}

/// Where the links end that have reached `link` from `last`, if `links` more may be followed.
#[tactic(auto, unfolding(crate::specs::Follow::chain))]
fn chain(
    alloc: Global,
    tree: &Tree,
    links: u8,
    last: &TreePath,
    link: &TreePath,
    target: &Target,
    cells: &mut Cells,
) -> Result<ChainEnd, AllocError>
    ensures { IfOk result (Finds tree.now (chain links last.now link.now target.now) cells.old cells.new) }
{
    if links == 0 {
        return Ok(ChainEnd::Dangling(last.copy()?));
    }
    match canonical(alloc, link, target.text())? {
        None => Ok(ChainEnd::Dangling(link.copy()?)),
        Some(path) if is_null(&path) => Ok(ChainEnd::Null),
        Some(path) => match look(tree, &path, cells)? {
            None => Ok(ChainEnd::Dangling(link.copy()?)),
            Some(Entry::File(contents)) => at_file(contents, path, link),
            Some(Entry::Link(target)) => {
                chain(alloc, tree, links - 1, link, &path, target, cells)
            }
        },
    }
}
