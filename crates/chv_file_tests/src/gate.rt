// A log that is begun, appended to and read.
use chv_gate::{GateRead, Log, begin, frame, step};
use chv_site::{Fails, FileId, MemSite};
use std::alloc::Global;

const LOG: FileId = FileId { table: 0, part: 0 };

fn is_appended(alloc: Global, site: &mut MemSite) -> bool {
    match frame(alloc, &[7, 8, 9]) {
        Ok(bytes) => {
            bytes.as_slice() == [3, 0, 0, 0, 7, 8, 9, 0].as_slice()
                && begin(site, LOG).is_ok()
                && !site.file(LOG).is_empty()
                && Log::at(LOG, 0).append(site, &bytes).is_ok()
                && site.file(LOG) == [1, 3, 0, 0, 0, 7, 8, 9, 0].as_slice()
        }
        Err(_) => false,
    }
}

fn is_read(alloc: Global, site: &mut MemSite) -> bool {
    match step(alloc, site, LOG, 0) {
        Ok(GateRead::Body { payload, next: 8 }) => payload.as_slice() == [7, 8, 9].as_slice(),
        _ => false,
    }
}

fn is_appended_and_read(alloc: Global) -> bool {
    let mut site = MemSite::new(alloc, Fails::new(alloc));
    is_appended(alloc, &mut site) && is_read(alloc, &mut site)
}

#[test]
fn a_frame_stands_behind_an_open_gate(rt: HostRuntime) {
    assert!(rt; is_appended_and_read(rt.alloc()));
}
