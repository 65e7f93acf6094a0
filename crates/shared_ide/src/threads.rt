//! Threads may share a workspace, and passes may be sent to them.
use crate::shared::SharedIde;
use index_workers::IdePass;

/// Does nothing, for any threads: that it may be called is what it says.
pub fn may_go_to_threads(ide: &SharedIde, pass: &IdePass) {
    share(ide);
    send(pass);
}

fn share<T: Sync>(_shared: &T) {}

fn send<T: Send>(_sent: &T) {}
