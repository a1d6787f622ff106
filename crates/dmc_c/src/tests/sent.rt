//! A handle may move from thread to thread.
use crate::handle::Handle;

fn moves<T: Send>(value: T) -> T {
    value
}

#[test]
fn handle_moves(rt: HostRuntime) {
    let handle = moves(Handle::none());
    handle.end(rt.alloc());
}
