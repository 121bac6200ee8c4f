//! The sizes that `c/tests/layout.c` has, too.

use dia_c_calls::{
    DictAvp, DictCommand, DictHandle, FaultsHandle, Fed, MessageAvp, MessageHead, PeerAddress,
    PeerApp, PeerHandle, PeerNumbers, PeerOptions, Problem, RecordedFault, StreamHandle,
    TextHandle, Verdict,
};

const _: () = prove!(size_of::<DictHandle>() == 16);

const _: () = prove!(size_of::<TextHandle>() == 16);

const _: () = prove!(size_of::<FaultsHandle>() == 16);

const _: () = prove!(size_of::<PeerHandle>() == 16);

const _: () = prove!(size_of::<StreamHandle>() == 16);

const _: () = prove!(size_of::<Problem>() == 12);

const _: () = prove!(size_of::<RecordedFault>() == 296);

const _: () = prove!(size_of::<Verdict>() == 48);

const _: () = prove!(size_of::<PeerAddress>() == 20);

const _: () = prove!(size_of::<PeerApp>() == 16);

const _: () = prove!(size_of::<PeerNumbers>() == 20);

const _: () = prove!(size_of::<PeerOptions<'_>>() == 184);

const _: () = prove!(size_of::<Fed>() == 16);

const _: () = prove!(size_of::<MessageAvp>() == 224);

const _: () = prove!(size_of::<MessageHead>() == 24);

const _: () = prove!(size_of::<DictCommand>() == 160);

const _: () = prove!(size_of::<DictAvp>() == 152);
