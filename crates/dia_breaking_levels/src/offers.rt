//! AVPs that may precede others, by the places of their keys: a tree of which each node holds the least of its two below.
ghost use Rattle.std.specs.Prelude.{◌≡◌, ◌≢◌, ◌⊎◌, ◌+◌, ◌<◌, ◌≤◌, ℕ, length, vec_len, IfOk};
ghost use Rattle.dia_breaking_levels.specs.Offers.{nothing, weight, lesser, node_at, weight_at};
ghost use Rattle.dia_breaking_levels.specs.Offers.{AreLeast, AreAttained, IsOneWithin};

use crate::lengths::TOO_LONG;
use dia_book::Key;
use std::alloc::{AllocError, Global};

/// One AVP more, of a key that may precede another.
#[derive(Clone, Copy)]
pub(crate) struct Offer {
    /// What it takes beyond the least level.
    pub length: u64,
    /// Of two offers that take as much, the one with the lesser turn is the lesser.
    pub turn: usize,
    /// None where nothing is offered.
    pub key: Option<Key>,
}

/// What is offered before the keys that come next.
#[derive(Drop)]
pub(crate) struct Offers {
    /// A tree of the offers of keys that the sender's definition lists. The second half has the least offer of each place. Node
    /// `n` of the first half has the lesser offer of the nodes `2n` and `2n + 1`.
    pub nodes: Vec<Offer>,
    /// The least offer of a key that the sender's definition doesn't list.
    pub other: Offer,
}

fn no_offer() -> Offer
    ensures { result ≡ nothing }
{
    Offer {
        length: TOO_LONG,
        turn: usize::MAX,
        key: None,
    }
}

/// No offers at so many places.
pub(crate) fn no_offers(alloc: Global, places: usize) -> Result<Offers, AllocError>
    ensures size { IfOk result (λ offers. vec_len offers.nodes ≡ places + places) }
    ensures tree { IfOk result (λ offers. AreLeast offers.nodes.items) }
    ensures attained { IfOk result (λ offers. AreAttained offers.nodes.items) }
    ensures empty { IfOk result (λ offers. (i : ℕ) → i < places + places
        → node_at offers.nodes.items i ≡ nothing) }
    ensures other { IfOk result (λ offers. offers.other ≡ nothing) }
{
    let mut nodes = Vec::from_elem(alloc, no_offer(), places)?;
    nodes.resize(nodes.len() * 2, no_offer())?;
    Ok(Offers {
        nodes,
        other: no_offer(),
    })
}

/// The lesser of two offers.
pub(crate) fn lesser(first: Offer, second: Offer) -> Offer
    ensures { result ≡ lesser first second }
{
    if second.length < first.length || second.length == first.length && second.turn < first.turn {
        second
    } else {
        first
    }
}

/// Puts an offer into a leaf, and into the nodes above that hold none that is less.
pub(crate) fn put(nodes: &mut [Offer], leaf: usize, offer: Offer)
    requires within { (0 < leaf) × (leaf < length nodes.old) }
    requires is_leaf { length nodes.old ≤ leaf + leaf }
    requires tree { AreLeast nodes.old }
    requires attained { AreAttained nodes.old }
    ensures tree { AreLeast nodes.new }
    ensures attained { AreAttained nodes.new }
    ensures size { length nodes.new ≡ length nodes.old }
    ensures below { (i : ℕ) → weight_at nodes.new i ≤ weight_at nodes.old i }
    ensures there { weight_at nodes.new leaf ≤ weight offer }
    ensures either { (node_at nodes.new leaf ≡ node_at nodes.old leaf) ⊎ (node_at nodes.new leaf ≡ offer) }
    ensures others { (i : ℕ) → length nodes.old ≤ i + i → i ≢ leaf → node_at nodes.new i ≡ node_at nodes.old i }
{
    let mut node = leaf;
    while node > 0 {
        nodes[node] = lesser(nodes[node], offer);
        node /= 2;
    }
}

/// The least offer of the leaves from one up to another.
pub(crate) fn least_between(nodes: &[Offer], from: usize, to: usize) -> Offer
    requires from { (0 < from) × (length nodes.now ≤ from + from) }
    requires to { to ≤ length nodes.now }
    requires tree { AreLeast nodes.now }
    requires attained { AreAttained nodes.now }
    ensures least { (i : ℕ) → from ≤ i → i < to → weight result ≤ weight_at nodes.now i }
    ensures attained { IsOneWithin nodes.now from to result }
{
    let mut least = no_offer();
    let mut low = from;
    let mut high = to;
    while low < high {
        least = lesser(least, lesser(nodes[low], nodes[high - 1]));
        low = (low + 1) / 2;
        high /= 2;
    }
    least
}
