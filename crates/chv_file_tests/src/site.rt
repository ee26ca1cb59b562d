// A source and a site in memory.
use crate::making::put_at;
use chv_site::{Failed, Fails, FileId, MemSite, MemSource, Pick, Site, Source};
use std::alloc::Global;

const LOG: FileId = FileId { table: 0, part: 0 };

const PART: FileId = FileId { table: 1, part: 8 };

// With a buffer of four bytes, five bytes come in two pulls, between which one fails.
fn is_pulled(source: &mut MemSource) -> bool {
    let mut buf = [0; 4];
    source.pull(&mut buf) == Ok(4)
        && source.pull(&mut buf) == Err(Failed)
        && source.pull(&mut buf) == Ok(1)
        && source.pull(&mut buf) == Ok(0)
}

// The second pull fails.
fn is_pulled_to_its_end(alloc: Global) -> bool {
    let mut fails = Fails::new(alloc);
    let _ = fails.push(2);
    match b"abcde".to_vec(alloc) {
        Ok(bytes) => is_pulled(&mut MemSource::new(bytes, fails)),
        Err(_) => false,
    }
}

#[test]
fn a_source_is_pulled_to_its_end(rt: HostRuntime) {
    assert!(rt; is_pulled_to_its_end(rt.alloc()));
}

// A put goes over what is there and past the end.
fn is_put(site: &mut MemSite) -> bool {
    put_at(site, LOG, 0, b"abc")
        && put_at(site, LOG, 2, b"de")
        && site.sync(LOG).is_ok()
        && put_at(site, PART, 0, b"xyz")
        && site.say(b"said").is_ok()
}

// A cut takes the tail, and a file that is discarded is empty.
fn is_cut(site: &mut MemSite) -> bool {
    let mut buf = [0; 4];
    site.size(LOG) == Ok(4)
        && site.file(LOG).len() == 4
        && site.cut(LOG, 3).is_ok()
        && site.discard(PART).is_ok()
        && site.size(PART) == Ok(0)
        && site.fetch(LOG, 1, &mut buf) == Ok(2)
        && buf == *b"bd\0\0"
}

// The cut was not synced.
fn is_left(site: MemSite) -> bool {
    match site.crash(Pick::Torn { byte: b'?' }) {
        Ok(left) => left.file(LOG) == b"abd?".as_slice() && left.said().is_empty(),
        Err(_) => false,
    }
}

fn has_and_leaves(alloc: Global) -> bool {
    let mut site = MemSite::new(alloc, Fails::new(alloc));
    is_put(&mut site) && is_cut(&mut site) && site.lacked() == 0 && is_left(site)
}

#[test]
fn a_site_has_what_is_put_and_leaves_what_a_crash_may_leave(rt: HostRuntime) {
    assert!(rt; has_and_leaves(rt.alloc()));
}
