//! What each call of `c/dia.h` does: the handles with what they hold, and a function for each call. `dia_c` exports these
//! functions to C, with the same clauses.
#![tactic(auto)]

mod avp_calls;
mod avp_list;
mod avp_path;
mod avp_records;
mod batch;
mod batches;
mod checks;
mod comparison;
mod comparisons;
mod dict_parts;
mod dict_records;
mod dictionaries;
mod explaining;
mod explanations;
mod fault_lists;
mod feeding;
mod findings;
mod first_avp;
mod handle;
mod heads;
mod held;
mod listing;
mod listings;
mod names;
mod numbers;
mod opening;
mod outcomes;
mod peer;
mod peer_config;
mod peer_numbers;
mod peer_opening;
mod peer_options;
mod peer_timers;
mod peer_values;
mod peers;
mod recorded_fault;
mod replies;
mod reply;
mod sink;
mod status;
mod streams;
mod text_views;
mod texts;
mod upgrade;
mod upgrades;
mod verdict;
mod verdict_line;
mod verdict_words;
mod wanted;
mod words;

pub use avp_calls::{avp_find, avps, avps_at};
pub use avp_records::MessageAvp;
pub use batches::check_many;
pub use checks::{check, check_json, message_length};
pub use comparisons::{compare, table_place};
pub use dict_parts::{dict_avp, dict_avps, dict_command, dict_commands};
pub use dict_records::{DictAvp, DictCommand};
pub use dictionaries::{avp_name, command_name, dict_close, dict_open, dict_open_base, dict_share};
pub use explanations::explain;
pub use fault_lists::{faults_close, faults_get, faults_open, line_column};
pub use handle::{DictHandle, FaultsHandle, PeerHandle, StreamHandle, TextHandle};
pub use heads::{MessageHead, header};
pub use listings::show;
pub use opening::Problem;
pub use peer_config::{PeerAddress, PeerApp, PeerNumbers};
pub use peer_opening::{peer_open, peer_open_as, peer_open_with};
pub use peer_options::PeerOptions;
pub use peer_timers::{peer_identifiers, peer_quiet_ms, peer_timer};
pub use peer_values::{peer_heard, peer_suspect, peer_value};
pub use peers::{peer_close, peer_common, peer_event, peer_output, peer_serves, peer_state};
pub use recorded_fault::RecordedFault;
pub use replies::answer;
pub use status::{
    BAD_ARGUMENT, DONE, IS_CLOSED, IS_OPEN, NO_MEMORY, NO_ROOM, NONE, OUTPUTS_LEFT, REFUSED, SPENT,
    status_numbers,
};
pub use streams::{
    Fed, stream_again, stream_close, stream_feed, stream_finish, stream_levels, stream_open,
};
pub use text_views::text_view;
pub use texts::{render, text_close, text_length, text_read};
pub use upgrades::breaking;
pub use verdict::Verdict;
pub use words::{kind_word, reason_word, status_word, verdict_text};

fn sent<T: Send>(x: T) -> T {
    x
}

/// C may give a handle to another thread: this asks for the proofs.
pub fn crossed(
    handles: (
        DictHandle,
        TextHandle,
        FaultsHandle,
        PeerHandle,
        StreamHandle,
    ),
) -> (
    DictHandle,
    TextHandle,
    FaultsHandle,
    PeerHandle,
    StreamHandle,
) {
    sent(handles)
}
