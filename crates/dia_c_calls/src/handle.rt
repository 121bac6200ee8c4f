//! What C holds of a dictionary, of a text, of its faults, of a connection or of a stream.

mod dict;
mod end;
mod faults;
mod parts;
mod peer;
mod seal;
mod slot;
mod stream;
mod text;

pub use dict::{DictHandle, check_all_in, check_in, owner_in};
pub use end::{give_in, hear_in, peer_in, report_in, take_ids_in};
pub use faults::{FaultsHandle, faults_in};
pub use peer::PeerHandle;
pub use stream::{StreamHandle, feeding_in};
pub use text::{TextHandle, bytes_in};
