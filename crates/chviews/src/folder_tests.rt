// The order of calls on the files of a folder, and its lock.
use crate::fake_system::{FakeSystem, Heard, QUIET, Told, is_text};
use crate::folder_site::FolderSite;
use crate::tests::{enter, leave};
use chv_site::{Failed, FileId, Site};
use std::io;
use std::test::Fail;

#[derive(Clone, Copy)]
enum Step {
    Put(u64),
    Cut(u64),
    Sync(u64),
    Discard(u64),
}

fn take<W: Site>(site: &mut W, step: Step) -> Result<(), Failed> {
    match step {
        Step::Put(part) => site.put(FileId { table: 1, part }, 0, b"ab"),
        Step::Cut(part) => site.cut(FileId { table: 1, part }, 0),
        Step::Sync(part) => site.sync(FileId { table: 1, part }),
        Step::Discard(part) => site.discard(FileId { table: 1, part }),
    }
}

fn are_taken<W: Site>(site: &mut W, steps: &[Step]) -> bool {
    for step in steps {
        if take(site, *step).is_err() {
            return false;
        }
    }
    true
}

// Whether the steps, taken in a folder with no store, ask these calls of its files.
fn ask(rt: HostRuntime, told: Told, steps: &[Step], calls: &str) -> io::Result<bool> {
    enter(&rt)?;
    let heard = Heard::new(rt.alloc());
    let system = FakeSystem {
        rt,
        told,
        heard: &heard,
    };
    let mut site = FolderSite::new(&system);
    let is_asked = are_taken(&mut site, steps) && is_text(&heard.calls, calls);
    leave(&rt)?;
    Ok(is_asked)
}

// The bytes of a file that was put or cut are synced, by the open that changed them where it was kept, and by a new one else.
#[test]
fn a_sync_reaches_the_bytes(rt: HostRuntime) -> Result<(), Fail> {
    let steps = [
        Step::Put(8),
        Step::Put(8),
        Step::Sync(8),
        Step::Cut(8),
        Step::Sync(8),
        Step::Sync(8),
    ];
    let calls =
        "open around, lock around, make folder, open file, write file, write file, sync data of file, \
        open folder, sync all of folder, open around, sync all of around, \
        open file, cut file, sync data of file, open file, sync data of file, ";
    assert!(rt; ask(rt, QUIET, &steps, calls)?);
    Ok(())
}

// The folder's own name is synced once, and the names in it behind each file that was made or removed.
#[test]
fn a_sync_reaches_the_names(rt: HostRuntime) -> Result<(), Fail> {
    let steps = [
        Step::Put(8),
        Step::Sync(8),
        Step::Put(9),
        Step::Sync(9),
        Step::Discard(8),
        Step::Sync(8),
    ];
    let calls = "open around, lock around, make folder, open file, write file, sync data of file, \
        open folder, sync all of folder, open around, sync all of around, \
        open file, write file, sync data of file, open folder, sync all of folder, \
        remove file, open folder, sync all of folder, ";
    assert!(rt; ask(rt, QUIET, &steps, calls)?);
    Ok(())
}

// Where a standard stream is closed, no file of the store stays open in its place.
#[test]
fn a_file_with_the_number_of_a_stream_is_not_kept(rt: HostRuntime) -> Result<(), Fail> {
    let told = Told {
        are_streams: true,
        ..QUIET
    };
    let calls =
        "open around, lock around, make folder, open file, write file, open file, sync data of file, \
        open folder, sync all of folder, open around, sync all of around, ";
    assert!(rt; ask(rt, told, &[Step::Put(8), Step::Sync(8)], calls)?);
    Ok(())
}

// Whether a site can't change the store of the working folder, as another one has it open.
fn is_kept_out(rt: HostRuntime) -> bool {
    let mut site = FolderSite::new(&rt);
    take(&mut site, Step::Put(8)).is_err() && site.is_taken()
}

#[test]
fn one_site_at_a_time_has_the_store(rt: HostRuntime) -> Result<(), Fail> {
    enter(&rt)?;
    let mut first = FolderSite::new(&rt);
    assert!(rt; first.size(FileId::catalog_log()).is_ok());
    assert!(rt; is_kept_out(rt));
    drop(first);
    assert!(rt; !is_kept_out(rt));
    Ok(leave(&rt)?)
}
