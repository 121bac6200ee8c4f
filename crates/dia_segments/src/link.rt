//! What precedes IP in a packet.

ghost use Rattle.std.specs.Prelude.{◌≡◌, ◌<◌, ◌≤◌, length, Ok, Err, IfSome, IsNone, MatchResult};
ghost use Rattle.dia_segments.specs.Links.{IsLaidOut, from_layout, is_ip, is_tag, layout_of, network, typed, untagged};

use crate::numbers::u16_at;
use crate::unread::Unread;

/// Where IP is in the packets of a link type.
#[derive(Clone, Copy)]
pub enum Layout {
    /// It begins at this offset.
    Ip(usize),
    /// An EtherType is at the first offset, and what it is the type of at the second.
    Typed(usize, usize),
}

/// The bytes of a packet of this link type from IP on.
pub fn network_of(link: u16, bytes: &[u8]) -> Result<&[u8], Unread>
    ensures { MatchResult result (λ rest. network link bytes.entry.now ≡ Ok rest.now)
        (λ why. network link bytes.entry.now ≡ Err why) }
{
    match layout_of(link) {
        None => Err(Unread::LinkType(link)),
        Some(layout) => laid_out(layout, bytes),
    }
}

/// The bytes from IP on of a packet with this layout.
fn laid_out(layout: Layout, bytes: &[u8]) -> Result<&[u8], Unread>
    requires { IsLaidOut layout }
    ensures { MatchResult result (λ rest. from_layout layout bytes.entry.now ≡ Ok rest.now)
        (λ why. from_layout layout bytes.entry.now ≡ Err why) }
{
    match layout {
        Layout::Ip(start) => {
            if bytes.len() < start {
                return Err(Unread::Malformed);
            }
            Ok(&bytes[start..])
        }
        Layout::Typed(kind, start) => {
            if bytes.len() < start {
                return Err(Unread::Malformed);
            }
            below_tags(u16_at(bytes, kind), &bytes[start..])
        }
    }
}

/// Where IP is in the packets of a link type that is read.
fn layout_of(link: u16) -> Option<Layout>
    ensures layout { result ≡ layout_of link }
    ensures laid_out { IfSome result (λ layout. IsLaidOut layout) }
{
    match link {
        // Ethernet, Linux cooked (versions 1 and 2), BSD loopback, raw IP
        1 => Some(Layout::Typed(12, 14)),
        113 => Some(Layout::Typed(14, 16)),
        276 => Some(Layout::Typed(0, 20)),
        0 | 108 => Some(Layout::Ip(4)),
        12 | 14 | 101 | 228 | 229 => Some(Layout::Ip(0)),
        _ => None,
    }
}

/// What follows the tags, if it is IP.
fn below_tags(kind: u16, bytes: &[u8]) -> Result<&[u8], Unread>
    ensures { MatchResult result (λ rest. typed (untagged kind bytes.entry.now) ≡ Ok rest.now)
        (λ why. typed (untagged kind bytes.entry.now) ≡ Err why) }
{
    let (kind, rest) = skip_tags(kind, bytes);
    if is_ip(kind) {
        Ok(rest)
    } else if is_tag(kind) {
        Err(Unread::Malformed)
    } else {
        Err(Unread::EtherType(kind))
    }
}

/// The type after all tags, and what it is the type of.
fn skip_tags(kind: u16, bytes: &[u8]) -> (u16, &[u8])
    ensures { untagged kind bytes.entry.now ≡ (result.0, result.1.now) }
{
    let mut kind = kind;
    let mut rest = bytes;
    while let Some((next, following)) = next_tag(kind, rest) {
        kind = next;
        rest = following;
    }
    (kind, rest)
}

/// The type in a tag at the front, and what follows the tag.
#[tactic(auto, using(crate::proofs::Untagged::untagged_none, crate::proofs::Untagged::untagged_short))]
fn next_tag(kind: u16, bytes: &[u8]) -> Option<(u16, &[u8])>
    ensures tag { IfSome result (λ next. untagged kind bytes.entry.now ≡ untagged next.0 next.1.now) }
    ensures shorter { IfSome result (λ next. length next.1.now < length bytes.entry.now) }
    ensures none { IsNone result → untagged kind bytes.entry.now ≡ (kind, bytes.entry.now) }
{
    if bytes.len() < 4 {
        return None;
    }
    if !is_tag(kind) {
        return None;
    }
    Some((u16_at(bytes, 2), &bytes[4..]))
}

fn is_tag(kind: u16) -> bool
    ensures { result ≡ is_tag kind }
{
    kind == 0x8100 || kind == 0x88a8 || kind == 0x9100
}

fn is_ip(kind: u16) -> bool
    ensures { result ≡ is_ip kind }
{
    kind == 0x0800 || kind == 0x86dd
}
