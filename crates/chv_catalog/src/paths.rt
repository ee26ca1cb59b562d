// Paths along views.
ghost use Rattle.std.specs.Prelude.{◌≡◌, ◌<◌, ◌≤◌, ◌++◌, ◌∷◌, [], length, map, suc, take, slice_get, Some, IfOk, OnOk};
ghost use Rattle.chv_catalog.specs.Paths.{links_of, passes_limits, paths_from, paths_within, reaches};
ghost use Rattle.chv_catalog.specs.Walks.{leads, left_behind};

use crate::{Link, Schema};
use sqlite_items::Items;
use std::alloc::{AllocError, Global};

/// The numbers of the views along a path, in the order in which a block runs down them.
pub type Path = Items<u32>;
/// Paths from a table, in preorder.
pub type Paths = Items<Path>;

// The most views on a path.
const MAX_PATH: u32 = 8;

// The most paths from a table.
const MAX_PATHS: u32 = 256;

// The links of all views that may stand, and one more.
const MAX_LINKS: usize = 257;

const NO_LINK: Link = Link {
    source: 0,
    target: 0,
};

impl Schema {
    /// All paths of a view or more from a table, in preorder. None has more than 8 views.
    #[tactic(auto, unfolding(crate::specs::Paths::paths_from))]
    pub fn paths(&self, alloc: Global, table: u32) -> Result<Paths, AllocError>
        ensures { IfOk result (λ paths. paths ≡ paths_from (links_of self.now.catalog.views) table) }
    {
        let mut links = [NO_LINK; MAX_LINKS];
        let count = self.lay_links(&mut links);
        let mut paths = Paths::new(alloc);
        put_paths(alloc, &links[..count], MAX_PATH, table, &[], &mut paths)?;
        Ok(paths)
    }

    /// Whether two tables are the same, or a path leads from the first to the second.
    #[tactic(auto, unfolding(crate::specs::Paths::reaches, crate::specs::Paths::paths_from))]
    pub fn reaches(&self, from: u32, to: u32) -> bool
        ensures { result ≡ reaches (links_of self.now.catalog.views) from to }
    {
        let mut links = [NO_LINK; MAX_LINKS];
        let count = self.lay_links(&mut links);
        leads(&links[..count], MAX_PATH, from, to)
    }

    /// Whether, with one view more, there are too many paths from a table, or one has too many views.
    ///
    /// The paths from a table are followed until they are too many, so that this is soon known of any schema.
    pub fn passes_limits_with(&self, link: Link) -> bool
        ensures { result ≡ passes_limits (length self.now.catalog.tables) (links_of self.now.catalog.views ++ link ∷ []) }
    {
        let mut links = [NO_LINK; MAX_LINKS];
        let count = self.lay_links(&mut links);
        links[count] = link;
        pass_limits(&links[..count + 1], self.tables())
    }

    // Lays out the links of the views, and answers how many they are.
    fn lay_links(&self, links: &mut [Link; MAX_LINKS]) -> usize
        ensures count { result ≡ length self.now.catalog.views }
        ensures most { result ≤ 256 }
        ensures laid { take result links.new ≡ links_of self.now.catalog.views }
    {
        let count = self.views() as usize;
        for view in 0..count {
            links[view] = self.link(view as u32);
        }
        count
    }

    // The link of a view.
    fn link(&self, view: u32) -> Link
        requires last { view < length self.now.catalog.views }
        ensures { slice_get (links_of self.now.catalog.views) view ≡ Some result }
    {
        let def = self.view_def(view);
        Link {
            source: def.source,
            target: def.target,
        }
    }
}

// Puts the paths from a table of so many views at most behind other paths, each with a front of views before it.
fn put_paths(
    alloc: Global,
    links: &[Link],
    room: u32,
    table: u32,
    front: &[u32],
    paths: &mut Paths,
) -> Result<(), AllocError>
    requires few { length links.now ≤ 257 }
    ensures { OnOk result (paths.new ≡ paths.old ++ map (λ path. front.now ++ path) (paths_within room links.now table)) }
{
    if room == 0 {
        return Ok(());
    }
    for view in 0..links.len() {
        if links[view].source == table {
            let path = put_path(alloc, front, view as u32, paths)?;
            put_paths(alloc, links, room - 1, links[view].target, &path, paths)?;
        }
    }
    Ok(())
}

// Puts a path behind others, and answers it: a front of views, and one more.
fn put_path(
    alloc: Global,
    front: &[u32],
    view: u32,
    paths: &mut Paths,
) -> Result<Vec<u32>, AllocError>
    ensures path { IfOk result (λ path. path.items ≡ front.now ++ view ∷ []) }
    ensures put { OnOk result (paths.new ≡ paths.old ++ (front.now ++ view ∷ []) ∷ []) }
{
    let mut path = Vec::from_slice(alloc, front)?;
    path.push(view)?;
    paths.push(Path::from_slice(alloc, &path)?)?;
    Ok(path)
}

// Whether two tables are the same, or a path of so many views at most leads from the first to the second.
fn leads(links: &[Link], room: u32, from: u32, to: u32) -> bool
    ensures { result ≡ leads room links.now from to }
{
    if from == to {
        return true;
    }
    if room == 0 {
        return false;
    }
    for view in 0..links.len() {
        if links[view].source == from && leads(links, room - 1, links[view].target, to) {
            return true;
        }
    }
    false
}

// How many paths more there may be behind those from a table; None where these are too many, or one has too many views.
fn left_behind(links: &[Link], most: u32, left: u32, table: u32) -> Option<u32>
    ensures { result ≡ left_behind most left (paths_within (suc most) links.now table) }
{
    let mut left = left;
    for view in 0..links.len() {
        if links[view].source == table {
            if most == 0 || left == 0 {
                return None;
            }
            left = left_behind(links, most - 1, left - 1, links[view].target)?;
        }
    }
    Some(left)
}

// Whether from one of so many tables there are too many paths, or one of too many views.
fn pass_limits(links: &[Link], tables: u32) -> bool
    ensures { result ≡ passes_limits tables links.now }
{
    for place in 0..tables {
        if left_behind(links, MAX_PATH, MAX_PATHS, place + 1).is_none() {
            return true;
        }
    }
    false
}
