//! The proved dictionaries and checks for programs in C: `c/dia.h` says how they are called, and `docs/LIBRARY.md` how a
//! program begins. Each export calls a function of `dia_c_calls`, and states its clauses again.
#![tactic(auto)]

ghost use Rattle.std.specs.Prelude.{◌≡◌};
ghost use Rattle.dia_c_calls.specs.Statuses.{abi_version};

mod avp_calls;
mod batches;
mod checks;
mod comparisons;
mod dict_parts;
mod dictionaries;
mod explanations;
mod fault_lists;
mod heads;
mod layout;
mod listings;
mod peer_opening;
mod peer_timers;
mod peer_values;
mod peers;
mod replies;
mod streams;
mod text_views;
mod texts;
mod upgrades;
mod words;

pub use avp_calls::{dia_avp_find, dia_avps, dia_avps_at};
pub use batches::dia_check_many;
pub use checks::{dia_check, dia_check_json, dia_message_length};
pub use comparisons::{dia_compare, dia_table_place};
pub use dict_parts::{dia_dict_avp, dia_dict_avps, dia_dict_command, dia_dict_commands};
pub use dictionaries::{
    dia_avp_name, dia_command_name, dia_dict_close, dia_dict_open, dia_dict_open_base,
    dia_dict_share,
};
pub use explanations::dia_explain;
pub use fault_lists::{dia_faults_close, dia_faults_get, dia_faults_open, dia_line_column};
pub use heads::dia_header;
pub use listings::dia_show;
pub use peer_opening::{dia_peer_open, dia_peer_open_as, dia_peer_open_with};
pub use peer_timers::{dia_peer_identifiers, dia_peer_quiet_ms, dia_peer_timer};
pub use peer_values::{dia_peer_heard, dia_peer_suspect, dia_peer_value};
pub use peers::{
    dia_peer_close, dia_peer_common, dia_peer_event, dia_peer_output, dia_peer_serves,
    dia_peer_state,
};
pub use replies::dia_answer;
pub use streams::{
    dia_stream_again, dia_stream_close, dia_stream_feed, dia_stream_finish, dia_stream_levels,
    dia_stream_open,
};
pub use text_views::dia_text_view;
pub use texts::{dia_render, dia_text_close, dia_text_length, dia_text_read};
pub use upgrades::dia_breaking;
pub use words::{dia_kind_word, dia_reason_word, dia_status_word, dia_verdict_text};

/// The version of this interface, which a program compares with `DIA_ABI_VERSION` of its header.
const ABI_VERSION: u32 = 1;

/// The version of this interface.
#[unsafe(no_mangle)]
pub extern "C" fn dia_abi_version() -> u32
    ensures { result ≡ abi_version }
{
    ABI_VERSION
}
